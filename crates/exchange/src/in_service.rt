// An exchange in service.
ghost use Rattle.std.specs.Prelude.{◌≡◌, ◌+◌, ◌^◌, ◌<◌, ◌≤◌, None, slice_index_or};
ghost use Rattle.exchange.specs.Table.{to_take};
ghost use Rattle.exchange.specs.Bounds.{highest_reading, last_opening, most_dialogues};
ghost use Rattle.exchange.specs.Service.{Sound, opened, written};

use crate::dialogue::Dialogue;
use crate::invokes::OwnNumber;
use crate::service::Service;
use crate::state::State;
use std::marker::Model;

/// An exchange in service, which takes calls: the four requests, `deliver`, `reply` and `clock`. It is had from
/// `FitOut::enter_service` alone, and is never copied.
#[derive(Drop)]
pub struct Exchange {
    pub(crate) service: Service,
}

// A contract sees an exchange as what it keeps.
impl Model for Exchange {
    ghost use Rattle.exchange.specs.declared.service.Service.{Service};
    ghost use Rattle.exchange.specs.Service.{Sound};

    ghost Value = { Service };

    ghost view = { λ exchange. exchange.service };

    ghost invariant = { λ exchange. Sound exchange.service };
}

impl Exchange {
    /// The last reading, in milliseconds, at most 2^40: no call takes a lower one. Of every exchange in service it is known that
    /// it has 32 places for dialogues, that its numbers begin at 1, and that the numbers which open dialogues may still take end
    /// at 60,032 (`sound`).
    pub fn last_reading(&self) -> u64
        ensures value { result ≡ self.now.last }
        ensures sound { Sound self.now }
    {
        let last = self.service.last;
        last
    }

    // Opens a dialogue under the next number.
    pub(crate) fn open_dialogue(&mut self, reading: u64, place: usize, state: State)
        requires place { place < most_dialogues }
        requires time { reading ≤ highest_reading }
        requires number { self.old.next.0 ≤ last_opening }
        ensures { self.new ≡ opened self.old reading place state }
    {
        let name = self.service.next;
        let ends = state.end(reading, &self.service.fit);
        self.service.dialogues[place] = Some(Dialogue {
            name,
            opened: reading,
            ends,
            state,
        });
        self.service.next = name.following();
        self.service.last = reading;
    }

    // Writes what stands at a place, the next number and the last reading.
    pub(crate) fn set_place(
        &mut self,
        reading: u64,
        next: OwnNumber,
        place: usize,
        slot: Option<Dialogue>,
    )
        requires place { place < most_dialogues }
        requires rising { self.old.next.0 ≤ next.0 }
        requires numbers { next.0 + to_take slot
            ≤ self.old.next.0 + to_take (slice_index_or self.old.dialogues place None) }
        ensures { self.new ≡ written self.old reading next place slot }
    {
        self.service.dialogues[place] = slot;
        self.service.next = next;
        self.service.last = reading;
    }
}
