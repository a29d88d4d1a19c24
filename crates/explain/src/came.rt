// What came of a record, in words, from the record of the sheet.
use crate::bytes::Bytes;
use crate::sent::{ErrorName, Sent, VerdictName};
use exchange::{Cause, OwnNumber, Report, Timer};
use records::SheetRecord;
use refusal::Refusal;
use std::fmt;
use wire::Field;

/// What a sheet has for a record of its tape: a field, which should be a record of a sheet, or nothing.
#[derive(Clone, Copy)]
pub struct Came<'a>(pub Option<Field<'a>>);

// What is reported of a dialogue.
#[derive(Clone, Copy)]
struct Told(Report);

// Why a dialogue failed.
#[derive(Clone, Copy)]
struct Failed(Cause);

#[derive(Clone, Copy)]
struct Timed(Timer);

#[derive(Clone, Copy)]
struct Refused(Refusal);

impl fmt::Display for Timed {
    fn fmt<W: fmt::Write>(&self, f: &mut fmt::Formatter<W>) -> fmt::Result {
        match self.0 {
            Timer::Tr => write!(f, "TR"),
            timer => {
                let number: u8 = timer.into();
                write!(f, "T{number}")
            }
        }
    }
}

impl fmt::Display for Failed {
    fn fmt<W: fmt::Write>(&self, f: &mut fmt::Formatter<W>) -> fmt::Result {
        match self.0 {
            Cause::Error(error) => {
                let number: u8 = error.into();
                write!(f, "by error {number}, {}", ErrorName(number))
            }
            Cause::Reject(problem) => write!(f, "by a reject with problem {problem}"),
            Cause::Expiry(timer) => write!(f, "by expiry of {}", Timed(timer)),
        }
    }
}

// What a report tells of its dialogue.
fn tell<W: fmt::Write>(report: Report, f: &mut fmt::Formatter<W>) -> fmt::Result {
    match report {
        Report::Challenge(challenge) => {
            write!(
                f,
                "gives the terminal the challenge {}",
                Bytes(challenge.bytes())
            )
        }
        Report::Verdict(verdict) => {
            write!(f, "is closed with verdict {}", VerdictName(verdict.into()))
        }
        Report::Failure(cause) => write!(f, "is closed: failure {}", Failed(cause)),
        Report::Response(response) => { write!(f, "is closed with response {}", Bytes(&response)) }
    }
}

impl fmt::Display for Told {
    fn fmt<W: fmt::Write>(&self, f: &mut fmt::Formatter<W>) -> fmt::Result {
        tell(self.0, f)
    }
}

impl fmt::Display for Refused {
    fn fmt<W: fmt::Write>(&self, f: &mut fmt::Formatter<W>) -> fmt::Result {
        let number: u8 = self.0.into();
        write!(f, "refused with {number}, {}", self.0)
    }
}

impl fmt::Display for Came<'_> {
    fn fmt<W: fmt::Write>(&self, f: &mut fmt::Formatter<W>) -> fmt::Result {
        let Some(field) = self.0 else {
            return write!(f, "nothing on the sheet");
        };
        match &SheetRecord::read(field) {
            Some(SheetRecord::Sent { peer, apdu }) => {
                let sent = Sent {
                    bytes: apdu,
                    with_values: true,
                };
                write!(f, "sent to peer {peer}{sent}")
            }
            Some(
                SheetRecord::Reported {
                    name: OwnNumber(name),
                    report,
                },
            ) => write!(f, "dialogue {name} {}", Told(*report)),
            Some(SheetRecord::Refused(refusal)) => write!(f, "{}", Refused(*refusal)),
            Some(SheetRecord::Done) => write!(f, "done"),
            None => write!(f, "what is no record of a sheet"),
        }
    }
}
