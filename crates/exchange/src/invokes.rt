// Two counts that are never compared: our numbers, and the ids under which peers invoke.
ghost use Rattle.std.specs.Prelude.{◌≡◌, ◌<◌, ◌≤◌};
ghost use Rattle.exchange.specs.Invokes.{following, asking};

use values::InvokeId;

/// A number of this exchange, from 1: a dialogue's name, or the id of an invoke that we send. A dialogue opens under one up to
/// 60,000; the second invoke of an initiation with values goes under one up to 60,032.
#[derive(Clone, Copy, PartialEq, Eq, PartialOrd, Ord)]
pub struct OwnNumber(pub u16);

impl OwnNumber {
    // The number after it.
    pub(crate) fn following(self) -> OwnNumber
        requires { self.0 < 65535 }
        ensures { result ≡ following self }
    {
        OwnNumber(self.0 + 1)
    }

    // The invoke to a peer under this number.
    pub(crate) fn asking(self, peer: u8) -> Asked
        ensures { result ≡ asking self peer }
    {
        Asked { peer, id: self }
    }

    // The id of the invoke that goes under it.
    pub(crate) fn invoke_id(self) -> InvokeId
        requires { 1 ≤ self.0 }
        ensures { result ≡ self.0 }
    {
        InvokeId::new(self.0).unwrap()
    }
}

/// The id under which a peer sent an invoke.
#[derive(Clone, Copy, PartialEq, Eq)]
pub struct PeerInvokeId(pub InvokeId);

/// An invoke of ours whose answer is awaited.
#[derive(Clone, Copy)]
pub struct Asked {
    /// The peer that it went to, from which the answer has to come.
    pub peer: u8,
    /// Its id, under which the answer has to come.
    pub id: OwnNumber,
}

/// An invoke of a peer that is owed its answer.
#[derive(Clone, Copy)]
pub struct Owed {
    /// The peer that it came from, to which the answer goes.
    pub peer: u8,
    /// Its id, under which the answer goes.
    pub id: PeerInvokeId,
}
