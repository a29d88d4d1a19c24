// How far the run found a record of a tape right, and so how much of it may be shown.
//
// A tape may be put together wrongly: where a time, a challenge, digits or an APDU belong, the bytes of a subscriber's
// key may stand. So no part of a record is shown before the run has found it right, but for a user number and for the fields
// of an APDU without their values, whose own form is right; bytes that are neither are only counted, and a draw is not shown
// at all. A sheet from elsewhere changes nothing of this: what is shown of a
// tape goes by the run that is made here, and of the sheet its records are shown, and of what is no record nothing.
//
// What remains is a key at a place where any bytes are right, which cannot be told from what belongs there:
// - the challenge of a network proof that is done, and the response of a reply that is done;
// - the challenges, responses and parameters of an APDU that is taken or sent, also where they are drawn;
// - 1 to 15 bytes that are ASCII digits, where digits belong;
// - a reading that was in time and is no higher than 2^40, of a record that is done or refused with 6 to 9 (or with 4 for
//   its peer alone), and the one or two bytes of a peer or a dialogue's name of such a record;
// - the one or two bytes of an invoke id, an algorithm's number or a problem, whatever came of the record;
// - the size of such a record, where a length was wrong and the key stands as the next record's head.
ghost use Rattle.std.specs.Prelude.{◌≡◌};
ghost use Rattle.std.specs.Option.{option_map};
ghost use Rattle.records.specs.Sheet.{sheet_view};
ghost use Rattle.explain.specs.Progress.{refused_with, answered_with, given};

use records::SheetRecord;
use refusal::Refusal;

/// How far a record was found right, by what came of it.
#[derive(Clone, Copy, PartialEq, Eq)]
pub enum Progress {
    /// It is done: all of it is right.
    Done,
    /// It is refused with 6 to 9: its reading and what it dials are right, and what it asks cannot be done now.
    Addressed,
    /// It is refused with 4: its reading is right, and something that it dials is not.
    Misdialled,
    /// It is refused with another number: nothing of it is known to be right.
    Nowhere,
}

fn progress_of(refusal: Refusal) -> Progress
    ensures { result ≡ refused_with refusal }
{
    match refusal {
        Refusal::Stray | Refusal::Twice | Refusal::Full | Refusal::Spent => Progress::Addressed,
        Refusal::Misdialled => Progress::Misdialled,
        _ => Progress::Nowhere,
    }
}

impl Progress {
    /// The progress of the record of a tape that has this record on the sheet of its run; without one, nothing of it is
    /// known to be right.
    pub fn of(outcome: &Option<SheetRecord<'_>>) -> Progress
        ensures { result ≡ answered_with (option_map sheet_view outcome.now) }
    {
        match outcome {
            Some(SheetRecord::Refused(refusal)) => progress_of(*refusal),
            Some(_) => Progress::Done,
            None => Progress::Nowhere,
        }
    }

    /// The progress of a record whose digits, or whose APDU, are as they should be, or are not. Where they are not, a
    /// record that is refused with 4 may be put together wrongly as a whole.
    pub fn given(self, is_well_formed: bool) -> Progress
        ensures { result ≡ given self is_well_formed }
    {
        if is_well_formed || self != Progress::Misdialled {
            self
        } else {
            Progress::Nowhere
        }
    }
}
