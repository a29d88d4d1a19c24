// Rows of a recorded card, found by their challenges.
ghost use Rattle.std.specs.Prelude.{◌≡◌, length};
ghost use Rattle.values.specs.Sizes.{response_size};
ghost use Rattle.algorithm.specs.Row.{IsWhole, challenge_key, NoTwoWithOneKey};

use crate::block::block;
use directory::Keyed;
use values::{Challenge, Response};

/// A challenge, and the response to it.
#[derive(Clone, Copy)]
pub struct Row {
    /// What is asked.
    pub challenge: Challenge,
    /// The 4 bytes that answer it.
    pub response: Response,
    ghost challenge_whole: { IsWhole challenge },
    ghost response_whole: { length response ≡ response_size },
}

impl Row {
    /// The row of a challenge and the response to it.
    pub fn new(challenge: Challenge, response: Response) -> Row
        ensures challenge { result.challenge ≡ challenge }
        ensures response { result.response ≡ response }
    {
        let _bytes = block(&challenge);
        Row {
            challenge,
            response,
        }
    }
}

impl Keyed for Row {
    ghost keyed = { λ row. challenge_key row.challenge };

    fn key(&self) -> u64 {
        challenge_key(&self.challenge)
    }
}

/// The key of a row with this challenge: its bytes as one number, high byte first.
#[tactic(auto, using(crate::proofs::RowKeys::no_two_with_one_key), unfolding(crate::specs::Row::challenge_key))]
pub fn challenge_key(challenge: &Challenge) -> u64
    ensures value { result ≡ challenge_key challenge.now }
    ensures whole { IsWhole challenge.now }
    ensures apart { NoTwoWithOneKey }
{
    u64::from_be_bytes(block(challenge))
}
