// What an exchange in service keeps, and the checks that its calls share.
ghost use Rattle.std.specs.Prelude.{◌≡◌, ◌<◌, ◌≤◌, length, IfOk, OnOk};
ghost use Rattle.exchange.specs.Bounds.{highest_reading, last_opening};
ghost use Rattle.exchange.specs.Service.{timely, ready, room};

use crate::dialogue::Dialogue;
use crate::fit_out::FitOut;
use crate::invokes::OwnNumber;
use refusal::Refusal;

/// The most dialogues that are open at once: the places for dialogues in a `Service`.
pub const MOST_DIALOGUES: usize = 32;

// The highest reading, 2^40.
const HIGHEST_READING: u64 = 1 << 40;

// The last number under which a dialogue opens.
const LAST_OPENING: u16 = 60_000;

/// What an exchange in service keeps.
#[derive(Clone, Copy)]
pub struct Service {
    /// What it was fitted out with, every value in its range.
    pub fit: FitOut,
    /// The last reading, in milliseconds, at most 2^40: that of the last done call, clocks that closed a dialogue aside.
    pub last: u64,
    /// The next number, from 1, which an opening dialogue takes. Above 60,000 none opens.
    pub next: OwnNumber,
    /// The places for dialogues: as many as may be open, so that entering service needs no memory and cannot fail for want of it.
    pub dialogues: [Option<Dialogue>; MOST_DIALOGUES],
}

impl Service {
    // The check of every call: the reading.
    pub(crate) fn check_time(&self, reading: u64) -> Result<(), Refusal>
        ensures value { result ≡ timely self.now reading }
        ensures passed { OnOk result (reading ≤ highest_reading) }
    {
        if !(self.last..=HIGHEST_READING).contains(&reading) {
            return Err(Refusal::ClockBack);
        }
        Ok(())
    }

    // The checks of every call but clock.
    pub(crate) fn check_ready(&self, reading: u64) -> Result<(), Refusal>
        ensures value { result ≡ ready self.now reading }
        ensures passed { OnOk result (reading ≤ highest_reading) }
    {
        self.check_time(reading)?;
        if self.is_timer_due(reading) {
            return Err(Refusal::TimerDue);
        }
        Ok(())
    }

    // The place for one more dialogue, where there is one and a number for it.
    pub(crate) fn check_room(&self) -> Result<usize, Refusal>
        ensures value { result ≡ room self.now }
        ensures passed { IfOk result
            (λ place. (place < length self.now.dialogues) × (self.now.next.0 ≤ last_opening)) }
    {
        let place = self.free_place().ok_or(Refusal::Full)?;
        if self.next.0 > LAST_OPENING {
            return Err(Refusal::Spent);
        }
        Ok(place)
    }
}
