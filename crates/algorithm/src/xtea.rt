// XTEA, Needham and Wheeler 1997, with 32 cycles.
ghost use Rattle.std.specs.Prelude.{◌≡◌, ◌+◌, ◌≤◌, ◌++◌, length};
ghost use Rattle.algorithm.specs.Words.{word, key_words, start, block_of};
ghost use Rattle.algorithm.specs.Xtea.{cycle, cycles, cycle_count, enciphered, last_changed, xtea_meaning, xtea_is_sized};
ghost use Rattle.algorithm.specs.Published.{PublishedStand};

use crate::algorithm::Algorithm;
use crate::block::block;
use crate::direction::Direction;
use values::{Challenge, Parameter, Response, SessionKey, UserKey};

// The number of the algorithm.
const XTEA_NUMBER: u8 = 1;

// How many cycles a block goes through.
const CYCLES: usize = 32;

// What a cycle adds to the running sum.
const DELTA: u32 = 0x9E37_79B9;

// A block in work, and the running sum.
#[derive(Clone, Copy)]
struct Work {
    v0: u32,
    v1: u32,
    sum: u32,
}

// The word of four bytes from a place on, high byte first.
fn word(bytes: &[u8], at: usize) -> u32
    requires { at + 4 ≤ length bytes.now }
    ensures { result ≡ word bytes.now at }
{
    u32::from_be_bytes([bytes[at], bytes[at + 1], bytes[at + 2], bytes[at + 3]])
}

fn key_words(key: &[u8; 16]) -> [u32; 4]
    ensures { result ≡ key_words key.now }
{
    [word(key, 0), word(key, 4), word(key, 8), word(key, 12)]
}

impl Work {
    fn start(block: &[u8; 8]) -> Work
        ensures { result ≡ start block.now }
    {
        Work {
            v0: word(block, 0),
            v1: word(block, 4),
            sum: 0,
        }
    }

    fn cycle(self, key: &[u32; 4]) -> Work
        ensures { result ≡ cycle key.now self }
    {
        let Work { v0, v1, sum } = self;
        let v0 = v0.wrapping_add(
            ((v1 << 4) ^ (v1 >> 5)).wrapping_add(v1) ^ sum.wrapping_add(key[(sum & 3) as usize]),
        );
        let sum = sum.wrapping_add(DELTA);
        let v1 = v1.wrapping_add(
            ((v0 << 4) ^ (v0 >> 5)).wrapping_add(v0)
                ^ sum.wrapping_add(key[((sum >> 11) & 3) as usize]),
        );
        Work { v0, v1, sum }
    }

    fn cycles(self, key: &[u32; 4]) -> Work
        ensures { result ≡ cycles key.now cycle_count self }
    {
        let mut work = self;
        for _ in 0..CYCLES {
            work = work.cycle(key);
        }
        work
    }

    fn block(self) -> [u8; 8]
        ensures { result ≡ block_of self }
    {
        let mut block = [0; 8];
        join(&self.v0.to_be_bytes(), &self.v1.to_be_bytes(), &mut block);
        block
    }
}

// Fills some places with two lists of bytes.
fn join(first: &[u8], second: &[u8], places: &mut [u8])
    requires { length first.now + length second.now ≡ length places.old }
    ensures { places.new ≡ first.now ++ second.now }
{
    let (front, back) = places.split_at_mut(first.len());
    front.copy_from_slice(first);
    back.copy_from_slice(second);
}

/// XTEA (Needham and Wheeler, 1997, 32 cycles): a block of 8 bytes under a key of 16, both high byte first.
#[tactic(auto, unfolding(crate::specs::Xtea::enciphered))]
pub fn encipher(key: &[u8; 16], block: &[u8; 8]) -> [u8; 8]
    ensures value { result ≡ enciphered key.now block.now }
    ensures published { PublishedStand }
{
    Work::start(block).cycles(&key_words(key)).block()
}

// A parameter with its last byte changed.
fn last_changed(parameter: &Parameter, by: u8) -> Parameter
    ensures { result ≡ last_changed parameter.now by }
{
    let mut changed = *parameter;
    changed[7] ^= by;
    changed
}

/// Algorithm 1, by XTEA: a session key is two blocks, and a response the first four bytes of one.
#[derive(Clone, Copy)]
pub struct Xtea;

impl Algorithm for Xtea {
    ghost meaning = { λ _. xtea_meaning };

    fn number(&self) -> u8 {
        XTEA_NUMBER
    }

    fn session(
        &mut self,
        direction: Direction,
        key: &UserKey,
        parameter: &Parameter,
    ) -> SessionKey {
        let d = u8::from(direction);
        let first = encipher(key, &last_changed(parameter, d));
        let second = encipher(key, &last_changed(parameter, d + 2));
        let mut session = [0; 16];
        join(&first, &second, &mut session);
        session
    }

    fn response(&mut self, session: &SessionKey, challenge: &Challenge) -> Response {
        let [a, b, c, d, ..] = encipher(session, &block(challenge));
        [a, b, c, d]
    }

    ghost sized = { λ _. xtea_is_sized };
}
