// The run of a whole tape.
ghost use Rattle.std.specs.Prelude.{[], ◌∷◌};
ghost use Rattle.wire.specs.Fields.{unread};
ghost use Rattle.sheet.specs.Bench.{bench_view};
ghost use Rattle.sheet.specs.Cases.{CasesStand};
ghost use Rattle.refusal.specs.declared.Refusal.TheVariants.{Garbled};
ghost use Rattle.sheet.specs.Adds.{Adds};
ghost use Rattle.records.specs.Sheet.{refused};
ghost use Rattle.sheet.specs.Laws.{OneRecordEach, ChangesNothing};
ghost use Rattle.sheet.specs.Run.{pieces_of, run_on, sheet_entries};

use crate::bench::{Bench, enter_service};
use crate::outcomes::{add_outcome, add_record};
use apdu::LEAST_BUFFER;
use directory::Blank;
use entries::{Link, Subscriber};
use records::SheetRecord;
use refusal::Refusal;
use std::alloc::AllocError;
use wire::Reader;

// The places for links and for subscribers.
const LINK_PLACES: usize = 32;

const SUBSCRIBER_PLACES: usize = 64;

// A record that is cut.
fn add_cut(sheet: &mut Vec<u8>) -> Result<(), AllocError>
    ensures { Adds result sheet.old sheet.new (refused Garbled ∷ []) }
{
    add_record(&SheetRecord::Refused(Refusal::Garbled), sheet)
}

// The records after the first.
fn run_on(
    bench: &mut Bench<'_>,
    reader: &mut Reader<'_>,
    sheet: &mut Vec<u8>,
) -> Result<(), AllocError>
    ensures { Adds result
        sheet.old sheet.new (run_on (bench_view bench.old) (pieces_of (unread reader.old))) }
{
    while let Some(field) = reader.next() {
        let mut buffer = [0u8; LEAST_BUFFER];
        let outcome = bench.take(field, &mut buffer);
        add_outcome(&outcome, &buffer, sheet)?;
    }
    if reader.is_done() {
        Ok(())
    } else {
        add_cut(sheet)
    }
}

// A whole tape, from its first record on.
fn run_all(tape: &[u8], sheet: &mut Vec<u8>) -> Result<(), AllocError>
    ensures { Adds result sheet.old sheet.new (sheet_entries tape.now) }
{
    let mut reader = Reader::new(tape);
    if reader.is_done() {
        return Ok(());
    }
    let Some(first) = reader.next() else {
        return add_cut(sheet);
    };
    match enter_service(first) {
        Err(refusal) => add_record(&SheetRecord::Refused(refusal), sheet),
        Ok(exchange) => {
            let mut links = [Link::blank(); LINK_PLACES];
            let mut subscribers = [Subscriber::blank(); SUBSCRIBER_PLACES];
            let mut bench = Bench::new(exchange, &mut links, &mut subscribers);
            add_record(&SheetRecord::Done, sheet)?;
            run_on(&mut bench, &mut reader, sheet)
        }
    }
}

/// Adds the sheet of a tape to a vector: one record for each record of the tape, up to where the run ends. An error only
/// where the vector's room does not suffice and memory is wanting; then the first records of the sheet were added, each
/// whole.
pub fn sheet(tape: &[u8], sheet: &mut Vec<u8>) -> Result<(), AllocError>
    ensures value { Adds result sheet.old sheet.new (sheet_entries tape.now) }
    ensures cases { CasesStand }
    ensures one_each { OneRecordEach }
    ensures passed_over { ChangesNothing }
{
    run_all(tape, sheet)
}
