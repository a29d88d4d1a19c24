// Draws.
ghost use Rattle.std.specs.Prelude.{◌≡◌};
ghost use Rattle.values.specs.Draw.{draw_of, drawn_challenge, drawn_parameter};

use crate::challenge::Challenge;
use crate::keys::Parameter;
use std::marker::Model;

/// What the host draws for a delivery: 8 bytes for a challenge, and then 8 for a parameter.
#[derive(Clone, Copy)]
pub struct Draw {
    bytes: [u8; 16],
}

// A contract sees a draw as its bytes.
impl Model for Draw {
    ghost use Rattle.std.specs.Prelude.{ℕ, List};

    ghost Value = { List ℕ };

    ghost view = { λ draw. draw.bytes };

    ghost inverse = { λ bytes. record { bytes = bytes } };
}

impl Draw {
    /// The draw that these bytes are; None where they are not 16.
    pub fn from_bytes(bytes: &[u8]) -> Option<Draw>
        ensures { result ≡ draw_of bytes.now }
    {
        Some(Draw {
            bytes: bytes.try_into().ok()?,
        })
    }

    /// The challenge drawn: the first 8 bytes.
    pub fn challenge(&self) -> Challenge
        ensures { result ≡ drawn_challenge self.now }
    {
        Challenge::new(*self.bytes.first_chunk().unwrap())
    }

    /// The parameter drawn: the last 8 bytes.
    pub fn parameter(&self) -> Parameter
        ensures { result ≡ drawn_parameter self.now }
    {
        *self.bytes.last_chunk().unwrap()
    }
}
