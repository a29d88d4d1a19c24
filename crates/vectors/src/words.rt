// The words of a line.
use algorithm::Direction;
use anyhow::{Context, Result, bail};
use hex::FromHex;
use std::str::SplitWhitespace;
use values::Challenge;

pub(crate) fn next_word<'a>(words: &mut SplitWhitespace<'a>) -> Result<&'a str> {
    words.next().context("a word is missing")
}

pub(crate) fn end(words: &mut SplitWhitespace) -> Result<()> {
    if words.next().is_some() {
        bail!("a line has a word too many");
    }
    Ok(())
}

// The bytes that a word has in hexadecimal.
pub(crate) fn bytes<const N: usize>(words: &mut SplitWhitespace) -> Result<[u8; N]> {
    Ok(<[u8; N]>::from_hex(next_word(words)?)?)
}

pub(crate) fn challenge(words: &mut SplitWhitespace) -> Result<Challenge> {
    Ok(Challenge::new(bytes(words)?))
}

pub(crate) fn direction(words: &mut SplitWhitespace) -> Result<Direction> {
    match next_word(words)? {
        "user" => Ok(Direction::User),
        "network" => Ok(Direction::Network),
        _ => bail!("a direction is user or network"),
    }
}
