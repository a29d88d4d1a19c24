// What is reported of a dialogue, as it stands on a sheet.
ghost use Rattle.std.specs.Prelude.{◌≡◌, ◌+◌, ◌<◌, ◌∷◌, ◌++◌, [], length};
ghost use Rattle.wire.specs.Fields.{field, two};
ghost use Rattle.wire.specs.Fronts.{HasRoom, InOneBuffer, Wrote};
ghost use Rattle.records.specs.declared.tags.SheetTag.TheVariants as tag;
ghost use Rattle.records.specs.Reports.{ReportSized, cause_kind, cause_number, cause_of, read_cause, report_of};
ghost use Rattle.records.specs.Sheet.{reported, sheet_bytes};
ghost use Rattle.records.specs.Tags.{sheet_tag_number, cause_kind_number, report_kind_number};

use crate::numbers::in_two;
use crate::tags::{CauseKind, ReportKind, SheetTag};
use exchange::{Cause, OwnNumber, Report, Timer};
use values::Challenge;
use wire::{ErrorCode, Verdict, Writer, byte_in, bytes_in};

// A cause of a kind, by its number.
fn cause_of(kind: CauseKind, number: u8) -> Option<Cause>
    ensures { result ≡ cause_of kind number }
{
    Some(match kind {
        CauseKind::Error => Cause::Error(ErrorCode::try_from(number).ok()?),
        CauseKind::Reject => Cause::Reject(number),
        CauseKind::Expiry => Cause::Expiry(Timer::try_from(number).ok()?),
    })
}

fn read_cause(value: &[u8]) -> Option<Cause>
    ensures { result ≡ read_cause value.now }
{
    match value {
        [kind, number] => cause_of(CauseKind::try_from(*kind).ok()?, *number),
        _ => None,
    }
}

// A report of a kind, by what is told of it.
pub(crate) fn report_of(kind: ReportKind, told: &[u8]) -> Option<Report>
    ensures { result ≡ report_of kind told.now }
{
    Some(match kind {
        ReportKind::Challenge => Report::Challenge(Challenge::from_bytes(told)?),
        ReportKind::Verdict => Report::Verdict(Verdict::try_from(byte_in(told)?).ok()?),
        ReportKind::Failure => Report::Failure(read_cause(told)?),
        ReportKind::Response => Report::Response(bytes_in(told)?),
    })
}

// A cause's kind and its number.
fn cause_bytes(cause: Cause) -> [u8; 2]
    ensures { result ≡ cause_kind_number (cause_kind cause) ∷ cause_number cause ∷ [] }
{
    match cause {
        Cause::Error(error) => [CauseKind::Error.into(), error.into()],
        Cause::Reject(problem) => [CauseKind::Reject.into(), problem],
        Cause::Expiry(timer) => [CauseKind::Expiry.into(), timer.into()],
    }
}

// A report of a kind: the dialogue's name, and what is told of it.
fn write_told(kind: ReportKind, name: OwnNumber, told: &[u8], writer: &mut Writer<'_>)
    requires fits { HasRoom writer.old (6 + length told.now) }
    requires short { 3 + length told.now < 65536 }
    ensures same_buffer { InOneBuffer writer.old writer.new }
    ensures wrote { Wrote writer.old
        (field (sheet_tag_number tag.Reported) (report_kind_number kind ∷ (two name.0 ++ told.now))) writer.new }
{
    let [high, low] = in_two(name.0);
    writer.pair(SheetTag::Reported.into(), &[kind.into(), high, low], told);
}

pub(crate) fn write_report(name: OwnNumber, report: Report, writer: &mut Writer<'_>)
    requires { HasRoom writer.old (length (sheet_bytes (reported name report))) }
    ensures same_buffer { InOneBuffer writer.old writer.new }
    ensures wrote { Wrote writer.old (sheet_bytes (reported name report)) writer.new }
    ensures sized { ReportSized report }
{
    match report {
        Report::Challenge(challenge) => {
            write_told(ReportKind::Challenge, name, challenge.bytes(), writer);
        }
        Report::Verdict(verdict) => {
            write_told(ReportKind::Verdict, name, &[verdict.into()], writer);
        }
        Report::Failure(cause) => {
            write_told(ReportKind::Failure, name, &cause_bytes(cause), writer);
        }
        Report::Response(response) => {
            write_told(ReportKind::Response, name, &response, writer);
        }
    }
}
