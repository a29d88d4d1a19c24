// The records of a sheet.
ghost use Rattle.std.specs.Prelude.{◌≡◌, ◌<◌, length};
ghost use Rattle.std.specs.Option.{option_map};
ghost use Rattle.wire.specs.Fronts.{HasRoom, InOneBuffer, Wrote};
ghost use Rattle.records.specs.Laws.{SheetReadsBack, SheetWritesBack};
ghost use Rattle.records.specs.Sheet.{SheetSized, read_sent, read_reported, read_refused, read_done, sheet_view, sheet_read_as, sheet_read, sheet_value, sheet_bytes};

use crate::numbers::two;
use crate::reports::{report_of, write_report};
use crate::tags::{ReportKind, SheetTag};
use exchange::{OwnNumber, Report};
use refusal::Refusal;
use wire::{Field, Writer, byte_in};

/// What came of a record of a tape.
#[derive(Clone, Copy)]
pub enum SheetRecord<'a> {
    /// An APDU goes to a peer.
    Sent {
        /// The peer.
        peer: u8,
        /// The APDU's bytes.
        apdu: &'a [u8],
    },
    /// The host is told of the dialogue with this name.
    Reported {
        /// The dialogue's name.
        name: OwnNumber,
        /// What is told of it.
        report: Report,
    },
    /// The record is refused.
    Refused(Refusal),
    /// The record is done, and nothing is sent or reported.
    Done,
}

fn read_sent(value: &[u8]) -> Option<SheetRecord<'_>>
    ensures { option_map sheet_view result ≡ read_sent value.now }
{
    let (peer, apdu) = value.split_first()?;
    Some(SheetRecord::Sent { peer: *peer, apdu })
}

fn read_reported(value: &[u8]) -> Option<SheetRecord<'_>>
    ensures { option_map sheet_view result ≡ read_reported value.now }
{
    let (kind, rest) = value.split_first()?;
    let (name, told) = rest.split_first_chunk::<2>()?;
    let report = report_of(ReportKind::try_from(*kind).ok()?, told)?;
    Some(SheetRecord::Reported {
        name: OwnNumber(two(*name)),
        report,
    })
}

fn read_refused(value: &[u8]) -> Option<SheetRecord<'_>>
    ensures { option_map sheet_view result ≡ read_refused value.now }
{
    let refusal = Refusal::try_from(byte_in(value)?).ok()?;
    Some(SheetRecord::Refused(refusal))
}

fn read_done(value: &[u8]) -> Option<SheetRecord<'_>>
    ensures { option_map sheet_view result ≡ read_done value.now }
{
    value.is_empty().then_some(SheetRecord::Done)
}

// What the value of a record with this tag says.
fn read_as(tag: SheetTag, value: &[u8]) -> Option<SheetRecord<'_>>
    ensures { option_map sheet_view result ≡ sheet_read_as tag value.now }
{
    match tag {
        SheetTag::Sent => read_sent(value),
        SheetTag::Reported => read_reported(value),
        SheetTag::Refused => read_refused(value),
        SheetTag::Done => read_done(value),
    }
}

fn read_field(field: Field<'_>) -> Option<SheetRecord<'_>>
    ensures { option_map sheet_view result ≡ sheet_read field.entry.tag field.entry.value.now }
{
    read_as(SheetTag::try_from(field.tag).ok()?, field.value)
}

impl<'a> SheetRecord<'a> {
    /// What a field of a sheet says. None where its tag is unknown, or its value is none of a record with this tag: a
    /// peer and an APDU; a report's kind, the dialogue's name and what is told, whose size and numbers are those of the
    /// kind; the number of a refusal; nothing. Whether an APDU is one is not looked at. What is read is written as the
    /// same bytes.
    pub fn read(field: Field<'a>) -> Option<SheetRecord<'a>>
        ensures value { option_map sheet_view result
            ≡ sheet_read field.entry.tag field.entry.value.now }
        ensures writes_back { SheetWritesBack }
    {
        read_field(field)
    }

    /// Writes the record. The buffer has room for it, and its value has at most 65,535 bytes. What is written is read as the
    /// same record (`reads_back`, of what `sized` says).
    #[inline(always)]
    #[tactic(auto, using(crate::proofs::SheetLemmas::sheet_reads_back))]
    pub fn write(&self, writer: &mut Writer<'_>)
        requires fits { HasRoom writer.old (length (sheet_bytes (sheet_view self.now))) }
        requires short { length (sheet_value (sheet_view self.now)) < 65536 }
        ensures same_buffer { InOneBuffer writer.old writer.new }
        ensures wrote { Wrote writer.old (sheet_bytes (sheet_view self.now)) writer.new }
        ensures reads_back { SheetReadsBack }
        ensures sized { SheetSized (sheet_view self.now) }
    {
        match *self {
            SheetRecord::Sent { peer, apdu } => {
                writer.pair(SheetTag::Sent.into(), &[peer], apdu);
            }
            SheetRecord::Reported { name, report } => write_report(name, report, writer),
            SheetRecord::Refused(refusal) => {
                writer.byte(SheetTag::Refused.into(), refusal.into());
            }
            SheetRecord::Done => writer.field(SheetTag::Done.into(), &[]),
        }
    }
}
