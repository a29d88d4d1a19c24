// Challenges.
ghost use Rattle.std.specs.Prelude.{◌≡◌};
ghost use Rattle.values.specs.Challenge.{IsChallenge, challenge_of};

use std::marker::Model;

/// What is to be answered by a response: 8 bytes.
#[derive(Clone, Copy, PartialEq, Eq)]
pub struct Challenge {
    bytes: [u8; 8],
}

// A contract sees a challenge as its bytes.
impl Model for Challenge {
    ghost use Rattle.std.specs.Prelude.{ℕ, List};

    ghost Value = { List ℕ };

    ghost view = { λ challenge. challenge.bytes };

    ghost inverse = { λ bytes. record { bytes = bytes } };
}

impl Challenge {
    /// The challenge of these bytes.
    pub fn new(bytes: [u8; 8]) -> Challenge
        ensures { result ≡ bytes }
    {
        Challenge { bytes }
    }

    /// The challenge that these bytes are; None where they are not 8.
    pub fn from_bytes(bytes: &[u8]) -> Option<Challenge>
        ensures { result ≡ challenge_of bytes.now }
    {
        Some(Challenge {
            bytes: bytes.try_into().ok()?,
        })
    }

    /// Its bytes.
    pub fn bytes(&self) -> &[u8]
        ensures value { result.now ≡ self.now }
        ensures size { IsChallenge self.now }
    {
        &self.bytes
    }
}
