// Why a call is turned down. A refusal returns its number alone and changes nothing.
#![tactic(auto)]

ghost use Rattle.std.specs.Prelude.{◌≡◌, Some};
ghost use Rattle.std.specs.Option.{ok_or};
ghost use Rattle.refusal.specs.Refusals.{refusal_number, refusal_name, refusal_of};

use std::error::Error;
use std::fmt;
use wire::UnknownNumber;

/// In the order in which a call checks for them, by their numbers.
#[derive(Clone, Copy, PartialEq, Eq, Debug)]
pub enum Refusal {
    /// The output buffer is under 64 bytes.
    ShortSheet = 1,
    /// The reading is below the last one, or above 2^40.
    ClockBack = 2,
    /// The call is no clock call, and a timer ends at or before its reading.
    TimerDue = 3,
    /// A bad user number; a peer of an initiation or a delivery that is no link; a challenge of another size than 8 bytes, a
    /// draw than 16, a response than 4; a place above 2, or peer 0, that is added.
    Misdialled = 4,
    /// Delivered bytes that are no APDU and are due no reject; a tape record that is cut, unknown, of a wrong size, or a second
    /// fit-out; fields to write that are no APDU.
    Garbled = 5,
    /// Nothing awaits the answer or the reply; no record has the key that is to be removed.
    Stray = 6,
    /// The invoke is still owed its answer; the directory has a record with this key.
    Twice = 7,
    /// No place is left for a dialogue, a record or a row.
    Full = 8,
    /// The numbers for opening dialogues are used up.
    Spent = 9,
    /// A fit-out value is out of its range.
    Misfitted = 10,
}

impl From<Refusal> for u8 {
    ghost from_gives = { λ refusal n. n ≡ refusal_number refusal };

    fn from(refusal: Refusal) -> u8 {
        refusal as u8
    }
}

impl TryFrom<u8> for Refusal {
    type Error = UnknownNumber;

    ghost try_from_gives = { λ n answer. answer ≡ ok_or (refusal_of n) (record { 0 = n }) };

    fn try_from(number: u8) -> Result<Refusal, UnknownNumber> {
        match number {
            1 => Ok(Refusal::ShortSheet),
            2 => Ok(Refusal::ClockBack),
            3 => Ok(Refusal::TimerDue),
            4 => Ok(Refusal::Misdialled),
            5 => Ok(Refusal::Garbled),
            6 => Ok(Refusal::Stray),
            7 => Ok(Refusal::Twice),
            8 => Ok(Refusal::Full),
            9 => Ok(Refusal::Spent),
            10 => Ok(Refusal::Misfitted),
            _ => Err(UnknownNumber(number)),
        }
    }
}

impl Refusal {
    /// Its name, in lowercase words, as Display writes it.
    pub fn name(self) -> &'static str
        ensures { result.now ≡ refusal_name self }
    {
        match self {
            Refusal::ShortSheet => "short sheet",
            Refusal::ClockBack => "clock back",
            Refusal::TimerDue => "timer due",
            Refusal::Misdialled => "misdialled",
            Refusal::Garbled => "garbled",
            Refusal::Stray => "stray",
            Refusal::Twice => "twice",
            Refusal::Full => "full",
            Refusal::Spent => "spent",
            Refusal::Misfitted => "misfitted",
        }
    }
}

impl fmt::Display for Refusal {
    ghost output = { λ refusal. Some (refusal_name refusal) };

    fn fmt<W: fmt::Write>(&self, f: &mut fmt::Formatter<W>) -> fmt::Result {
        f.write_str(self.name())
    }
}

impl Error for Refusal {}
