// The states of a dialogue.
ghost use Rattle.std.specs.Prelude.{◌≡◌, ◌≤◌};
ghost use Rattle.exchange.specs.Bounds.{highest_reading};
ghost use Rattle.exchange.specs.State.{timer_of, end_of, owed_by, asked_by, is_owed_to, is_asked_of, is_at_terminal};

use crate::fit_out::{FitOut, Timer};
use crate::invokes::{Asked, Owed, OwnNumber, PeerInvokeId};
use values::{Challenge, Response, User};

/// What a dialogue awaits and what it owes. `computes` tells whether our invoke said that the asker can compute, so that a
/// session may come back.
#[derive(Clone, Copy)]
pub enum State {
    /// For an initiation with values: awaits the server's result of wtatParamEnq, with a unit for this user at this peer. T2.
    FetchingForInitiation {
        /// Our invoke whose answer is awaited.
        asked: Asked,
        /// The user whom the later invoke names.
        user: User,
        /// The peer of the initiation, to which that invoke goes.
        peer: u8,
    },
    /// Awaits the peer's result of authWtmUser. T1.
    Initiating {
        /// Our invoke whose answer is awaited.
        asked: Asked,
    },
    /// Owes getWtatParam; awaits the server's result of wtatParamEnq. T2.
    FetchingForVisitor {
        /// Our invoke whose answer is awaited.
        asked: Asked,
        /// The peer's invoke that is owed its answer.
        owed: Owed,
        /// Whether our invoke said that the asker can compute.
        computes: bool,
    },
    /// Owes authWtmUser, or nothing after a Visitor start; awaits Home's result of getWtatParam. T3.
    Requesting {
        /// Our invoke whose answer is awaited.
        asked: Asked,
        /// The peer's invoke that is owed its answer, if there is one.
        owed: Option<Owed>,
        /// Whether our invoke said that the asker can compute.
        computes: bool,
    },
    /// With the terminal: owes as when requesting; awaits the terminal's reply, correct where it is this response of 4 bytes. TR.
    Executing {
        /// The peer's invoke that is owed its answer, if there is one.
        owed: Option<Owed>,
        /// The response that is correct, 4 bytes.
        expected: Response,
    },
    /// Awaits Home's result of getWtanParam, for the terminal's challenge of 8 bytes. T4.
    RequestingProof {
        /// Our invoke whose answer is awaited.
        asked: Asked,
        /// Whether our invoke said that the asker can compute.
        computes: bool,
        /// The terminal's challenge, 8 bytes.
        challenge: Challenge,
    },
    /// Owes getWtanParam; awaits the server's result of wtanParamEnq. T5.
    FetchingProof {
        /// Our invoke whose answer is awaited.
        asked: Asked,
        /// The peer's invoke that is owed its answer.
        owed: Owed,
        /// Whether our invoke said that the asker can compute.
        computes: bool,
    },
}

impl State {
    // The timer that runs in this state.
    pub(crate) fn timer(&self) -> Timer
        ensures { result ≡ timer_of self.now }
    {
        match self {
            State::FetchingForInitiation { .. } | State::FetchingForVisitor { .. } => Timer::T2,
            State::Initiating { .. } => Timer::T1,
            State::Requesting { .. } => Timer::T3,
            State::Executing { .. } => Timer::Tr,
            State::RequestingProof { .. } => Timer::T4,
            State::FetchingProof { .. } => Timer::T5,
        }
    }

    // The reading at which its timer ends, where it is entered at a reading.
    pub(crate) fn end(&self, reading: u64, fit: &FitOut) -> u64
        requires time { reading ≤ highest_reading }
        ensures { result ≡ end_of fit.now reading self.now }
    {
        reading + u64::from(fit.duration(self.timer()))
    }

    // The peer's invoke that is owed its answer.
    pub(crate) fn owed(&self) -> Option<Owed>
        ensures { result ≡ owed_by self.now }
    {
        match self {
            State::FetchingForInitiation { .. }
            | State::Initiating { .. }
            | State::RequestingProof { .. } => None,
            State::FetchingForVisitor { owed, .. } | State::FetchingProof { owed, .. } => Some(
                *owed,
            ),
            State::Requesting { owed, .. } | State::Executing { owed, .. } => *owed,
        }
    }

    // Our invoke whose answer is awaited.
    pub(crate) fn asked(&self) -> Option<Asked>
        ensures { result ≡ asked_by self.now }
    {
        match self {
            State::FetchingForInitiation { asked, .. }
            | State::Initiating { asked }
            | State::FetchingForVisitor { asked, .. }
            | State::Requesting { asked, .. }
            | State::RequestingProof { asked, .. }
            | State::FetchingProof { asked, .. } => Some(*asked),
            State::Executing { .. } => None,
        }
    }

    // Whether it owes a peer the answer to an invoke.
    pub(crate) fn owes(&self, peer: u8, id: PeerInvokeId) -> bool
        ensures { result ≡ is_owed_to peer id.0 (owed_by self.now) }
    {
        self.owed()
            .is_some_and(|owed| owed.id == id && owed.peer == peer)
    }

    // Whether it awaits a peer's answer to an invoke.
    pub(crate) fn awaits(&self, peer: u8, id: OwnNumber) -> bool
        ensures { result ≡ is_asked_of peer id.0 (asked_by self.now) }
    {
        self.asked()
            .is_some_and(|asked| asked.id == id && asked.peer == peer)
    }

    // Whether the terminal has a challenge.
    pub(crate) fn is_at_terminal(&self) -> bool
        ensures { result ≡ is_at_terminal self.now }
    {
        matches!(self, State::Executing { .. })
    }
}
