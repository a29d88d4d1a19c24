// The records of a tape.
ghost use Rattle.std.specs.Prelude.{◌≡◌, ◌+◌, ◌<◌, ◌∷◌, ◌++◌, length};
ghost use Rattle.std.specs.Option.{option_map};
ghost use Rattle.wire.specs.Fields.{field, two};
ghost use Rattle.wire.specs.Fronts.{HasRoom, count_of, InOneBuffer, Wrote};
ghost use Rattle.records.specs.Laws.{TapeReadsBack, TapeWritesBack};
ghost use Rattle.records.specs.Numbers.{in_bytes};
ghost use Rattle.records.specs.Tags.{tape_tag_number};
ghost use Rattle.records.specs.Tape.{TapeSized, IsBelow, reading_size, fit_out, subscriber, visitor_start, network_proof_view, reply_view, delivery_view, read_fit_out, read_link, read_subscriber, initiation_view, read_initiation, read_visitor_start, read_network_proof, read_reply, read_delivery, read_clock, bit_of, bit, tape_view, tape_read_as, tape_read, tape_value, tape_bytes, fit_out_bytes, initiation_bytes};

use crate::numbers::{eight, four_at, in_eight, in_four, in_two, two};
use crate::tags::TapeTag;
use exchange::{FitOut, OwnNumber};
use values::{Challenge, Response, UserKey};
use wire::{Field, Writer};

/// What both initiations ask: that a peer authenticates a user.
#[derive(Clone, Copy)]
pub struct Initiation<'a> {
    /// In milliseconds.
    pub reading: u64,
    /// The peer that is to authenticate the user.
    pub peer: u8,
    /// The user's digits, which may be none and need not be digits: the call looks at them.
    pub digits: &'a [u8],
}

/// A terminal challenges the network.
#[derive(Clone, Copy)]
pub struct NetworkProof<'a> {
    /// In milliseconds.
    pub reading: u64,
    /// What the network is to answer.
    pub challenge: Challenge,
    /// The user's digits, as those of an initiation.
    pub digits: &'a [u8],
}

/// The terminal of a dialogue responds to its challenge.
#[derive(Clone, Copy)]
pub struct Reply {
    /// In milliseconds.
    pub reading: u64,
    /// The dialogue's name.
    pub name: OwnNumber,
    /// What the terminal answers.
    pub response: Response,
}

/// Bytes come from a peer.
#[derive(Clone, Copy)]
pub struct Delivery<'a> {
    /// In milliseconds.
    pub reading: u64,
    /// What is drawn for them: 8 bytes for a challenge, then 8 for a parameter.
    pub draw: [u8; 16],
    /// The peer that they come from.
    pub peer: u8,
    /// The bytes, which may be none and need not be an APDU.
    pub bytes: &'a [u8],
}

/// What a record of a tape asks. The sizes are right; whether the values are, the call tells that takes them. Readings are in
/// milliseconds.
#[derive(Clone, Copy)]
pub enum TapeRecord<'a> {
    /// Enters service, as the first record alone.
    FitOut(FitOut),
    /// Adds a link.
    Link {
        /// The peer.
        peer: u8,
    },
    /// Adds a subscriber: where the parameters are (0 nowhere, 1 here, 2 at the server), the user's key and digits.
    Subscriber {
        /// The place of the key: 0 nowhere, 1 here, 2 at the server.
        place: u8,
        /// The user's key.
        key: &'a UserKey,
        /// The user's digits, as those of an initiation.
        digits: &'a [u8],
    },
    /// Has a user authenticated by a peer.
    PlainInitiation(Initiation<'a>),
    /// The same, with a unit that the server gives.
    InitiationWithValues(Initiation<'a>),
    /// Starts authenticating a user of Home's who is here.
    VisitorStart {
        /// In milliseconds.
        reading: u64,
        /// The user's digits, as those of an initiation.
        digits: &'a [u8],
    },
    /// Has the network proved to a terminal.
    NetworkProof(NetworkProof<'a>),
    /// Judges a terminal's response.
    Reply(Reply),
    /// Takes a peer's bytes.
    Delivery(Delivery<'a>),
    /// Tells the time.
    Clock {
        /// In milliseconds.
        reading: u64,
    },
}

// A byte that is 0 or 1.
#[inline(always)]
fn bit_of(byte: u8) -> Option<bool>
    ensures { result ≡ bit_of byte }
{
    match byte {
        0 => Some(false),
        1 => Some(true),
        _ => None,
    }
}

fn read_fit_out(value: &[u8]) -> Option<FitOut>
    ensures { result ≡ read_fit_out value.now }
{
    if value.len() != 27 {
        return None;
    }
    let can_compute = bit_of(value[26])?;
    Some(FitOut {
        t1: four_at(value, 0),
        t2: four_at(value, 4),
        t3: four_at(value, 8),
        t4: four_at(value, 12),
        t5: four_at(value, 16),
        tr: four_at(value, 20),
        home: value[24],
        server: value[25],
        can_compute,
    })
}

#[inline(always)]
fn read_link(value: &[u8]) -> Option<TapeRecord<'_>>
    ensures { option_map tape_view result ≡ read_link value.now }
{
    match value {
        [peer] => Some(TapeRecord::Link { peer: *peer }),
        _ => None,
    }
}

#[inline(always)]
fn read_subscriber(value: &[u8]) -> Option<TapeRecord<'_>>
    ensures { option_map tape_view result ≡ read_subscriber value.now }
{
    let (place, rest) = value.split_first()?;
    let (key, digits) = rest.split_first_chunk::<16>()?;
    Some(TapeRecord::Subscriber {
        place: *place,
        key,
        digits,
    })
}

#[inline(always)]
fn read_initiation(value: &[u8]) -> Option<Initiation<'_>>
    ensures { option_map initiation_view result ≡ read_initiation value.now }
{
    let (reading, rest) = value.split_first_chunk::<8>()?;
    let (peer, digits) = rest.split_first()?;
    Some(Initiation {
        reading: eight(*reading),
        peer: *peer,
        digits,
    })
}

#[inline(always)]
fn read_visitor_start(value: &[u8]) -> Option<TapeRecord<'_>>
    ensures { option_map tape_view result ≡ read_visitor_start value.now }
{
    let (reading, digits) = value.split_first_chunk::<8>()?;
    Some(TapeRecord::VisitorStart {
        reading: eight(*reading),
        digits,
    })
}

#[inline(always)]
fn read_network_proof(value: &[u8]) -> Option<TapeRecord<'_>>
    ensures { option_map tape_view result ≡ read_network_proof value.now }
{
    let (reading, rest) = value.split_first_chunk::<8>()?;
    let (challenge, digits) = rest.split_first_chunk::<8>()?;
    Some(TapeRecord::NetworkProof(NetworkProof {
        reading: eight(*reading),
        challenge: Challenge::new(*challenge),
        digits,
    }))
}

#[inline(always)]
fn read_reply(value: &[u8]) -> Option<TapeRecord<'_>>
    ensures { option_map tape_view result ≡ read_reply value.now }
{
    let (reading, rest) = value.split_first_chunk::<8>()?;
    let (name, rest) = rest.split_first_chunk::<2>()?;
    let response = rest.try_into().ok()?;
    Some(TapeRecord::Reply(Reply {
        reading: eight(*reading),
        name: OwnNumber(two(*name)),
        response,
    }))
}

#[inline(always)]
fn read_delivery(value: &[u8]) -> Option<TapeRecord<'_>>
    ensures { option_map tape_view result ≡ read_delivery value.now }
{
    let (reading, rest) = value.split_first_chunk::<8>()?;
    let (draw, rest) = rest.split_first_chunk::<16>()?;
    let (peer, bytes) = rest.split_first()?;
    Some(TapeRecord::Delivery(Delivery {
        reading: eight(*reading),
        draw: *draw,
        peer: *peer,
        bytes,
    }))
}

#[inline(always)]
fn read_clock(value: &[u8]) -> Option<TapeRecord<'_>>
    ensures { option_map tape_view result ≡ read_clock value.now }
{
    let reading = value.try_into().ok()?;
    Some(TapeRecord::Clock {
        reading: eight(reading),
    })
}

// 1 or 0.
fn bit(is_set: bool) -> u8
    ensures { result ≡ bit is_set }
{
    is_set.into()
}

// The tag and the length of a record that begins with a reading, and the reading.
fn begin(writer: &mut Writer<'_>, tag: TapeTag, reading: u64, rest: usize)
    requires fits { HasRoom writer.old 11 }
    requires short { 8 + rest < 65536 }
    ensures same_buffer { InOneBuffer writer.old writer.new }
    ensures wrote { Wrote writer.old
        (tape_tag_number tag ∷ (two (8 + rest) ++ in_bytes 8 reading)) writer.new }
    ensures end { count_of writer.new ≡ count_of writer.old + 11 }
    ensures below { IsBelow reading_size reading }
{
    writer.head(tag.into(), 8 + rest);
    writer.bytes(&in_eight(reading));
}

fn write_fit_out(fit: &FitOut, writer: &mut Writer<'_>)
    requires fits { HasRoom writer.old 30 }
    ensures same_buffer { InOneBuffer writer.old writer.new }
    ensures wrote { Wrote writer.old (tape_bytes (fit_out fit.now)) writer.new }
    ensures sized { TapeSized (fit_out fit.now) }
{
    writer.head(TapeTag::FitOut.into(), 27);
    writer.bytes(&in_four(fit.t1));
    writer.bytes(&in_four(fit.t2));
    writer.bytes(&in_four(fit.t3));
    writer.bytes(&in_four(fit.t4));
    writer.bytes(&in_four(fit.t5));
    writer.bytes(&in_four(fit.tr));
    writer.bytes(&[fit.home, fit.server, bit(fit.can_compute)]);
}

#[tactic(auto, using(crate::proofs::WriteLemmas::lengths))]
fn write_subscriber(place: u8, key: &UserKey, digits: &[u8], writer: &mut Writer<'_>)
    requires fits { HasRoom writer.old (length (tape_bytes (subscriber place key.now digits.now))) }
    requires short { length (tape_value (subscriber place key.now digits.now)) < 65536 }
    ensures same_buffer { InOneBuffer writer.old writer.new }
    ensures wrote { Wrote writer.old (tape_bytes (subscriber place key.now digits.now)) writer.new }
    ensures sized { TapeSized (subscriber place key.now digits.now) }
{
    writer.head(TapeTag::Subscriber.into(), 17 + digits.len());
    writer.bytes(&[place]);
    writer.bytes(key);
    writer.bytes(digits);
}

// Either initiation.
fn write_initiation(tag: TapeTag, initiation: &Initiation<'_>, writer: &mut Writer<'_>)
    requires fits { HasRoom writer.old (12 + length initiation.now.digits.now) }
    requires short { 9 + length initiation.now.digits.now < 65536 }
    ensures same_buffer { InOneBuffer writer.old writer.new }
    ensures wrote { Wrote writer.old
        (field (tape_tag_number tag) (initiation_bytes (initiation_view initiation.now))) writer.new }
    ensures below { IsBelow reading_size initiation.now.reading }
{
    begin(writer, tag, initiation.reading, 1 + initiation.digits.len());
    writer.bytes(&[initiation.peer]);
    writer.bytes(initiation.digits);
}

fn write_visitor_start(reading: u64, digits: &[u8], writer: &mut Writer<'_>)
    requires fits { HasRoom writer.old (11 + length digits.now) }
    requires short { 8 + length digits.now < 65536 }
    ensures same_buffer { InOneBuffer writer.old writer.new }
    ensures wrote { Wrote writer.old (tape_bytes (visitor_start reading digits.now)) writer.new }
    ensures sized { TapeSized (visitor_start reading digits.now) }
{
    begin(writer, TapeTag::VisitorStart, reading, digits.len());
    writer.bytes(digits);
}

impl NetworkProof<'_> {
    #[tactic(auto, using(crate::proofs::WriteLemmas::lengths))]
    fn write(&self, writer: &mut Writer<'_>)
        requires fits { HasRoom writer.old (length (tape_bytes (network_proof_view self.now))) }
        requires short { length (tape_value (network_proof_view self.now)) < 65536 }
        ensures same_buffer { InOneBuffer writer.old writer.new }
        ensures wrote { Wrote writer.old (tape_bytes (network_proof_view self.now)) writer.new }
        ensures sized { TapeSized (network_proof_view self.now) }
    {
        let challenge = self.challenge.bytes();
        begin(
            writer,
            TapeTag::NetworkProof,
            self.reading,
            challenge.len() + self.digits.len(),
        );
        writer.bytes(challenge);
        writer.bytes(self.digits);
    }
}

impl Reply {
    #[tactic(auto, using(crate::proofs::WriteLemmas::lengths))]
    fn write(&self, writer: &mut Writer<'_>)
        requires { HasRoom writer.old (length (tape_bytes (reply_view self.now))) }
        ensures same_buffer { InOneBuffer writer.old writer.new }
        ensures wrote { Wrote writer.old (tape_bytes (reply_view self.now)) writer.new }
        ensures sized { TapeSized (reply_view self.now) }
    {
        begin(writer, TapeTag::Reply, self.reading, 6);
        writer.bytes(&in_two(self.name.0));
        writer.bytes(&self.response);
    }
}

impl Delivery<'_> {
    #[tactic(auto, using(crate::proofs::WriteLemmas::lengths))]
    fn write(&self, writer: &mut Writer<'_>)
        requires fits { HasRoom writer.old (length (tape_bytes (delivery_view self.now))) }
        requires short { length (tape_value (delivery_view self.now)) < 65536 }
        ensures same_buffer { InOneBuffer writer.old writer.new }
        ensures wrote { Wrote writer.old (tape_bytes (delivery_view self.now)) writer.new }
        ensures sized { TapeSized (delivery_view self.now) }
    {
        begin(
            writer,
            TapeTag::Delivery,
            self.reading,
            17 + self.bytes.len(),
        );
        writer.bytes(&self.draw);
        writer.bytes(&[self.peer]);
        writer.bytes(self.bytes);
    }
}

// What the value of a record with this tag asks.
#[inline(always)]
fn read_as(tag: TapeTag, value: &[u8]) -> Option<TapeRecord<'_>>
    ensures { option_map tape_view result ≡ tape_read_as tag value.now }
{
    match tag {
        TapeTag::FitOut => Some(TapeRecord::FitOut(read_fit_out(value)?)),
        TapeTag::Link => read_link(value),
        TapeTag::Subscriber => read_subscriber(value),
        TapeTag::PlainInitiation => read_initiation(value).map(TapeRecord::PlainInitiation),
        TapeTag::InitiationWithValues => {
            read_initiation(value).map(TapeRecord::InitiationWithValues)
        }
        TapeTag::VisitorStart => read_visitor_start(value),
        TapeTag::NetworkProof => read_network_proof(value),
        TapeTag::Reply => read_reply(value),
        TapeTag::Delivery => read_delivery(value),
        TapeTag::Clock => read_clock(value),
    }
}

#[inline(always)]
fn read_field(field: Field<'_>) -> Option<TapeRecord<'_>>
    ensures { option_map tape_view result ≡ tape_read field.entry.tag field.entry.value.now }
{
    read_as(TapeTag::try_from(field.tag).ok()?, field.value)
}

impl<'a> TapeRecord<'a> {
    /// What a field of a tape asks. None where its tag is unknown, or its value has a wrong size: 27 bytes for a fit-out,
    /// whose last is 0 or 1, 1 for a link, 8 for the clock, 14 for a reply; at least 17 for a subscriber, 9 for an
    /// initiation, 8 for a Visitor start, 16 for a network proof, 25 for a delivery. What is read is written as the same
    /// bytes.
    #[inline(always)]
    pub fn read(field: Field<'a>) -> Option<TapeRecord<'a>>
        ensures value { option_map tape_view result
            ≡ tape_read field.entry.tag field.entry.value.now }
        ensures writes_back { TapeWritesBack }
    {
        read_field(field)
    }

    /// Writes the record. The buffer has room for it, and its value has at most 65,535 bytes. What is written is read as the
    /// same record (`reads_back`, of what `sized` says).
    #[tactic(auto, using(crate::proofs::WriteLemmas::lengths, crate::proofs::TapeLemmas::tape_reads_back))]
    pub fn write(&self, writer: &mut Writer<'_>)
        requires fits { HasRoom writer.old (length (tape_bytes (tape_view self.now))) }
        requires short { length (tape_value (tape_view self.now)) < 65536 }
        ensures same_buffer { InOneBuffer writer.old writer.new }
        ensures wrote { Wrote writer.old (tape_bytes (tape_view self.now)) writer.new }
        ensures reads_back { TapeReadsBack }
        ensures sized { TapeSized (tape_view self.now) }
    {
        match self {
            TapeRecord::FitOut(fit) => write_fit_out(fit, writer),
            TapeRecord::Link { peer } => writer.byte(TapeTag::Link.into(), *peer),
            TapeRecord::Subscriber { place, key, digits } => {
                write_subscriber(*place, key, digits, writer);
            }
            TapeRecord::PlainInitiation(initiation) => {
                write_initiation(TapeTag::PlainInitiation, initiation, writer);
            }
            TapeRecord::InitiationWithValues(initiation) => {
                write_initiation(TapeTag::InitiationWithValues, initiation, writer);
            }
            TapeRecord::VisitorStart { reading, digits } => {
                write_visitor_start(*reading, digits, writer);
            }
            TapeRecord::NetworkProof(proof) => proof.write(writer),
            TapeRecord::Reply(reply) => reply.write(writer),
            TapeRecord::Delivery(delivery) => delivery.write(writer),
            TapeRecord::Clock { reading } => {
                writer.field(TapeTag::Clock.into(), &in_eight(*reading));
            }
        }
    }
}
