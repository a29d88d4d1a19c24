// What came of a record of a tape, added to the sheet as a record.
ghost use Rattle.std.specs.Prelude.{◌≡◌, ◌≤◌, [], ◌∷◌, length, take};
ghost use Rattle.records.specs.Sheet.{reported, sheet_view};
ghost use Rattle.sheet.specs.Adds.{Adds};
ghost use Rattle.sheet.specs.Outcomes.{IsShort, outcome_entry};

use apdu::LEAST_BUFFER;
use exchange::{Done, OwnNumber, Report};
use records::SheetRecord;
use refusal::Refusal;
use std::alloc::AllocError;
use wire::Writer;

// No record that is added is longer, in bytes: tag and length, a peer, and a whole buffer.
const LONGEST: usize = 4 + LEAST_BUFFER;

// The first bytes of the buffer.
#[inline(always)]
fn first_bytes(buffer: &[u8], size: usize) -> &[u8]
    ensures value { result.now ≡ take size buffer.now }
    ensures bound { length result.now ≤ length buffer.now }
{
    buffer.get(..size).unwrap_or(buffer)
}

#[inline(always)]
fn reported<'a>(name: OwnNumber, report: Report) -> SheetRecord<'a>
    ensures value { sheet_view result ≡ reported name report }
    ensures short { IsShort (sheet_view result) }
{
    SheetRecord::Reported { name, report }
}

// Adds a record to the sheet, as one slice: all of it or nothing.
#[inline(always)]
pub(crate) fn add_record(added: &SheetRecord<'_>, sheet: &mut Vec<u8>) -> Result<(), AllocError>
    requires { IsShort (sheet_view added.now) }
    ensures { Adds result sheet.old sheet.new (sheet_view added.now ∷ []) }
{
    let mut bytes = [0u8; LONGEST];
    let mut writer = Writer::new(&mut bytes);
    added.write(&mut writer);
    let size = writer.count();
    sheet.extend_from_slice(&bytes[..size])
}

// Adds the record of an outcome; an APDU that is sent stands at the front of the buffer.
#[inline(always)]
pub(crate) fn add_outcome(
    outcome: &Result<Done, Refusal>,
    buffer: &[u8; LEAST_BUFFER],
    sheet: &mut Vec<u8>,
) -> Result<(), AllocError>
    ensures { Adds result sheet.old sheet.new (outcome_entry outcome.now buffer.now ∷ []) }
{
    match *outcome {
        Ok(Done::Quiet) => add_record(&SheetRecord::Done, sheet),
        Ok(Done::Sent { peer, size }) => {
            let apdu = first_bytes(buffer, size);
            add_record(&SheetRecord::Sent { peer, apdu }, sheet)
        }
        Ok(Done::Reported { name, report }) => add_record(&reported(name, report), sheet),
        Err(refusal) => add_record(&SheetRecord::Refused(refusal), sheet),
    }
}
