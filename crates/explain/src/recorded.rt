// What a record of a tape asks, in words.
use crate::bytes::Bytes;
use crate::digits::Digits;
use crate::progress::Progress;
use crate::sent::Sent;
use entries::KeyPlace;
use exchange::{FitOut, OwnNumber};
use records::{Delivery, Initiation, NetworkProof, Reply, TapeRecord};
use std::fmt;
use wire::Field;

/// A record of a tape, and how far the run found it right.
#[derive(Clone, Copy)]
pub struct Recorded<'a> {
    /// The record as it stands on the tape.
    pub field: Field<'a>,
    /// How far it was found right.
    pub progress: Progress,
}

// Where a subscriber's parameters are, by the number of the place. A byte that is no place is not shown: it may be part
// of a key.
#[derive(Clone, Copy)]
struct Placed {
    place: u8,
    progress: Progress,
}

// The reading of a call.
#[derive(Clone, Copy)]
struct At {
    reading: u64,
    progress: Progress,
}

// The peer of an initiation or of a delivery.
#[derive(Clone, Copy)]
struct Peer {
    number: u8,
    progress: Progress,
}

// Each record, with how far it was found right.

#[derive(Clone, Copy)]
struct FittedOut {
    fit: FitOut,
    progress: Progress,
}

#[derive(Clone, Copy)]
struct Linked {
    peer: u8,
    progress: Progress,
}

// A subscriber without its key, which is not shown.
#[derive(Clone, Copy)]
struct Subscribed<'a> {
    place: u8,
    digits: &'a [u8],
    progress: Progress,
}

// Either initiation.
#[derive(Clone, Copy)]
struct Initiated<'a> {
    name: &'a str,
    initiation: Initiation<'a>,
    progress: Progress,
}

#[derive(Clone, Copy)]
struct Started<'a> {
    reading: u64,
    digits: &'a [u8],
    progress: Progress,
}

#[derive(Clone, Copy)]
struct Proved<'a> {
    proof: NetworkProof<'a>,
    progress: Progress,
}

#[derive(Clone, Copy)]
struct Replied {
    reply: Reply,
    progress: Progress,
}

#[derive(Clone, Copy)]
struct Delivered<'a> {
    delivery: Delivery<'a>,
    progress: Progress,
}

impl fmt::Display for Placed {
    fn fmt<W: fmt::Write>(&self, f: &mut fmt::Formatter<W>) -> fmt::Result {
        match (self.progress, KeyPlace::try_from(self.place)) {
            (Progress::Misdialled, _) => write!(f, "at a place above 2"),
            (Progress::Nowhere, _) | (_, Err(_)) => write!(f, "at a place that is not shown"),
            (_, Ok(KeyPlace::NoParameters)) => write!(f, "no parameters"),
            (_, Ok(KeyPlace::Here)) => write!(f, "key here"),
            (_, Ok(KeyPlace::Server)) => write!(f, "key at the server"),
        }
    }
}

impl fmt::Display for At {
    fn fmt<W: fmt::Write>(&self, f: &mut fmt::Formatter<W>) -> fmt::Result {
        let At { reading, progress } = *self;
        if progress == Progress::Nowhere {
            return write!(f, "at a reading that is not shown");
        }
        write!(f, "at {reading} ms")
    }
}

impl fmt::Display for Peer {
    fn fmt<W: fmt::Write>(&self, f: &mut fmt::Formatter<W>) -> fmt::Result {
        let Peer { number, progress } = *self;
        match progress {
            Progress::Done | Progress::Addressed => write!(f, "peer {number}"),
            Progress::Misdialled => write!(f, "a peer that is no link"),
            Progress::Nowhere => write!(f, "a peer that is not shown"),
        }
    }
}

impl fmt::Display for FittedOut {
    fn fmt<W: fmt::Write>(&self, f: &mut fmt::Formatter<W>) -> fmt::Result {
        if self.progress != Progress::Done {
            return write!(f, "fit-out whose values are not shown");
        }
        let FitOut {
            t1,
            t2,
            t3,
            t4,
            t5,
            tr,
            home,
            server,
            can_compute,
        } = self.fit;
        let can = if can_compute { "can" } else { "cannot" };
        write!(
            f,
            "fit-out with T1 {t1} ms, T2 {t2} ms, T3 {t3} ms, T4 {t4} ms, T5 {t5} ms, TR {tr} ms"
        )?;
        write!(f, ", Home peer {home}, server peer {server}, {can} compute")
    }
}

impl fmt::Display for Linked {
    fn fmt<W: fmt::Write>(&self, f: &mut fmt::Formatter<W>) -> fmt::Result {
        if self.progress != Progress::Done {
            return write!(f, "link to a peer of 1 byte that is not shown");
        }
        write!(f, "link to peer {}", self.peer)
    }
}

impl fmt::Display for Subscribed<'_> {
    fn fmt<W: fmt::Write>(&self, f: &mut fmt::Formatter<W>) -> fmt::Result {
        let user = Digits(self.digits);
        let place = self.place;
        let progress = self.progress.given(user.is_user());
        write!(f, "subscriber {user}, {}", Placed { place, progress })
    }
}

impl fmt::Display for Initiated<'_> {
    fn fmt<W: fmt::Write>(&self, f: &mut fmt::Formatter<W>) -> fmt::Result {
        let Initiation {
            reading,
            peer: number,
            digits,
        } = self.initiation;
        let user = Digits(digits);
        let progress = self.progress.given(user.is_user());
        let at = At { reading, progress };
        let peer = Peer { number, progress };
        write!(f, "{at}, {} to {peer} for user {user}", self.name)
    }
}

impl fmt::Display for Started<'_> {
    fn fmt<W: fmt::Write>(&self, f: &mut fmt::Formatter<W>) -> fmt::Result {
        let user = Digits(self.digits);
        let reading = self.reading;
        let progress = self.progress.given(user.is_user());
        write!(
            f,
            "{}, Visitor start for user {user}",
            At { reading, progress }
        )
    }
}

impl fmt::Display for Proved<'_> {
    fn fmt<W: fmt::Write>(&self, f: &mut fmt::Formatter<W>) -> fmt::Result {
        let reading = self.proof.reading;
        let user = Digits(self.proof.digits);
        let progress = self.progress.given(user.is_user());
        let at = At { reading, progress };
        write!(f, "{at}, network proof for user {user}")?;
        if self.progress != Progress::Done {
            return write!(f, " to a challenge that is not shown");
        }
        write!(f, " to challenge {}", Bytes(self.proof.challenge.bytes()))
    }
}

impl fmt::Display for Replied {
    fn fmt<W: fmt::Write>(&self, f: &mut fmt::Formatter<W>) -> fmt::Result {
        // Of a reply that is refused nothing but the reading was looked at and found right.
        if self.progress != Progress::Done {
            return write!(f, "reply that is not shown");
        }
        let reading = self.reply.reading;
        let OwnNumber(name) = self.reply.name;
        let response = Bytes(&self.reply.response);
        write!(
            f,
            "at {reading} ms, response {response} from the terminal of dialogue {name}"
        )
    }
}

impl fmt::Display for Delivered<'_> {
    fn fmt<W: fmt::Write>(&self, f: &mut fmt::Formatter<W>) -> fmt::Result {
        let reading = self.delivery.reading;
        let number = self.delivery.peer;
        let bytes = self.delivery.bytes;
        let with_values = self.progress == Progress::Done;
        let sent = Sent { bytes, with_values };
        let progress = self.progress.given(sent.is_well_formed());
        let at = At { reading, progress };
        let peer = Peer { number, progress };
        write!(f, "{at}, delivery from {peer}{sent}")
    }
}

impl fmt::Display for Recorded<'_> {
    fn fmt<W: fmt::Write>(&self, f: &mut fmt::Formatter<W>) -> fmt::Result {
        let Recorded { field, progress } = *self;
        let Some(record) = TapeRecord::read(field) else {
            return write!(f, "record of an unknown tag or of a wrong size");
        };
        match record {
            TapeRecord::FitOut(fit) => write!(f, "{}", FittedOut { fit, progress }),
            TapeRecord::Link { peer } => write!(f, "{}", Linked { peer, progress }),
            TapeRecord::Subscriber { place, digits, .. } => {
                let subscribed = Subscribed {
                    place,
                    digits,
                    progress,
                };
                write!(f, "{subscribed}")
            }
            TapeRecord::PlainInitiation(initiation) => {
                let name = "plain initiation";
                let initiated = Initiated {
                    name,
                    initiation,
                    progress,
                };
                write!(f, "{initiated}")
            }
            TapeRecord::InitiationWithValues(initiation) => {
                let name = "initiation with values";
                let initiated = Initiated {
                    name,
                    initiation,
                    progress,
                };
                write!(f, "{initiated}")
            }
            TapeRecord::VisitorStart { reading, digits } => {
                let started = Started {
                    reading,
                    digits,
                    progress,
                };
                write!(f, "{started}")
            }
            TapeRecord::NetworkProof(proof) => write!(f, "{}", Proved { proof, progress }),
            TapeRecord::Reply(reply) => write!(f, "{}", Replied { reply, progress }),
            TapeRecord::Delivery(delivery) => write!(f, "{}", Delivered { delivery, progress }),
            TapeRecord::Clock { reading } => write!(f, "{}, clock", At { reading, progress }),
        }
    }
}
