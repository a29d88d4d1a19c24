// What a call that is not refused comes to, and how it is written to the lent buffer.
ghost use Rattle.std.specs.Prelude.{◌≡◌, ◌≤◌, length};
ghost use Rattle.apdu.specs.Encode.{least_buffer};
ghost use Rattle.exchange.specs.Outcome.{done_of, buffer_after};

use crate::fit_out::Timer;
use crate::invokes::OwnNumber;
use apdu::Apdu;
use values::{Challenge, Response};
use wire::{ErrorCode, Verdict};

/// Why a dialogue failed, as a report of failure tells it.
#[derive(Clone, Copy)]
pub enum Cause {
    /// An error came for our invoke: which one.
    Error(ErrorCode),
    /// A reject came for our invoke: its problem, one byte, which may be any.
    Reject(u8),
    /// The dialogue's timer ended: which one.
    Expiry(Timer),
}

/// What the host is told of a dialogue. All but a challenge close it.
#[derive(Clone, Copy)]
pub enum Report {
    /// What the user's terminal is to answer.
    Challenge(Challenge),
    /// Whether the user's response was the expected one.
    Verdict(Verdict),
    /// No verdict and no response will come, and why.
    Failure(Cause),
    /// The network's response to the terminal's challenge.
    Response(Response),
}

// What a call decides.
#[derive(Clone, Copy)]
pub(crate) enum Outcome {
    // Nothing is sent or reported.
    Quiet,
    // An APDU goes to a peer.
    Send { peer: u8, apdu: Apdu },
    // A report of the dialogue with this name.
    Report { name: OwnNumber, report: Report },
}

/// What a call that is not refused gives its host. The report is a parameter of the type, so that a host may hand on a refusal
/// by `?`: docs/DECISIONS.md has the reason. It is always a `Report`.
#[derive(Clone, Copy)]
pub enum Done<R = Report> {
    /// Nothing is sent or reported, and the buffer is as it was.
    Quiet,
    /// An APDU for this peer stands at the front of the buffer, `size` bytes long, and the rest of the buffer is as it was: the
    /// memory is the caller's, so that no call can fail for want of it.
    Sent {
        /// The peer that the APDU goes to, 1 to 255.
        peer: u8,
        /// How many bytes it has, at most 49.
        size: usize,
    },
    /// A report of the dialogue with this name; the buffer is as it was.
    Reported {
        /// The dialogue's name.
        name: OwnNumber,
        /// What is told of it.
        report: R,
    },
}

impl Outcome {
    // Writes an APDU that goes to a peer to the front of the buffer; with anything else the buffer stays as it is.
    #[inline(always)]
    pub(crate) fn write(&self, out: &mut [u8]) -> Done
        requires { least_buffer ≤ length out.old }
        ensures value { result ≡ done_of self.now }
        ensures buffer { out.new ≡ buffer_after self.now out.old }
    {
        match self {
            Outcome::Quiet => Done::Quiet,
            Outcome::Send { peer, apdu } => {
                let size = apdu::write(apdu, out).unwrap();
                Done::Sent { peer: *peer, size }
            }
            Outcome::Report { name, report } => Done::Reported {
                name: *name,
                report: *report,
            },
        }
    }
}
