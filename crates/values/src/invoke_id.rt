// Invoke ids.
ghost use Rattle.std.specs.Prelude.{◌≡◌, ◌≤◌};
ghost use Rattle.wire.specs.Fields.{two};
ghost use Rattle.values.specs.InvokeId.{numbered_id, id_in};

use std::marker::Model;
use wire::bytes_in;

/// The id of an invoke: 1 to 65,535.
#[derive(Clone, Copy, PartialEq, Eq, PartialOrd, Ord, Debug)]
pub struct InvokeId {
    number: u16,
}

// A contract sees an id as its number.
impl Model for InvokeId {
    ghost use Rattle.std.specs.Prelude.{ℕ, ◌≤◌};

    ghost Value = { ℕ };

    ghost view = { λ id. id.number };

    ghost invariant = { λ id. 1 ≤ id.number };

    ghost inverse = { λ number. record { number = number } };
}

impl InvokeId {
    /// The id with a number; None for 0.
    pub fn new(number: u16) -> Option<InvokeId>
        ensures { result ≡ numbered_id number }
    {
        if number == 0 {
            return None;
        }
        Some(InvokeId { number })
    }

    /// The id in the value of a field: two bytes, high byte first. None where they are not two, or are the number 0.
    pub fn read(value: &[u8]) -> Option<InvokeId>
        ensures { result ≡ id_in value.now }
    {
        InvokeId::new(u16::from_be_bytes(bytes_in(value)?))
    }

    /// Its number.
    pub fn number(self) -> u16
        ensures value { result ≡ self }
        ensures lawful { 1 ≤ self }
    {
        let InvokeId { number } = self;
        number
    }

    /// Its number in two bytes, high byte first.
    pub fn bytes(self) -> [u8; 2]
        ensures value { result ≡ two self }
        ensures lawful { 1 ≤ self }
    {
        self.number.to_be_bytes()
    }
}
