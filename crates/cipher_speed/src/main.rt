// Enciphers a block over and over by XTEA, each time what came out before, and prints the last block in hexadecimal.
// Standard input has the key (16 bytes), the first block (8 bytes), and how many times (4 bytes, high byte first).
#![tactic(auto)]

use algorithm::encipher;
use anyhow::{Context, Result};
use std::io::Read;

fn enciphered_often(key: &[u8; 16], block: [u8; 8], times: u32) -> [u8; 8] {
    let mut block = block;
    for _ in 0..times {
        block = encipher(key, &block);
    }
    block
}

fn main(rt: HostRuntime) -> Result<()> {
    let mut input = Vec::new(rt.alloc());
    rt.stdin().read_to_end(&mut input)?;
    let (key, rest) = input.split_first_chunk::<16>().context("the key is cut")?;
    let (block, rest) = rest.split_first_chunk::<8>().context("the block is cut")?;
    let (times, _) = rest.split_first_chunk::<4>().context("the count is cut")?;
    let last = enciphered_often(key, *block, u32::from_be_bytes(*times));
    for b in &last {
        print!(rt; "{b:02x}")?;
    }
    println!(rt; "")?;
    Ok(())
}
