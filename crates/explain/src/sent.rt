// An APDU that is sent or delivered, in words.
ghost use Rattle.std.specs.Prelude.{◌≡◌};
ghost use Rattle.apdu.specs.Decode.{received_as};
ghost use Rattle.explain.specs.WellFormed.{is_well_formed};

use crate::bytes::Bytes;
use crate::digits::Digits;
use apdu::NoApdu;
use std::fmt;
use wire::{ErrorCode, Field, Kind, Operation, Provider, Reader, Verdict, tags};

/// What is sent or delivered: an APDU by its fields, an invoke that is due a reject by its id and the problem, and of
/// other bytes their number alone.
#[derive(Clone, Copy)]
pub struct Sent<'a> {
    /// What is sent or delivered.
    pub bytes: &'a [u8],
    /// Whether challenges, responses and parameters are shown. A session key never is.
    pub with_values: bool,
}

// A field of an APDU.
#[derive(Clone, Copy)]
struct Named<'a> {
    field: Field<'a>,
    with_values: bool,
}

// A challenge and its response.
#[derive(Clone, Copy)]
struct Unit<'a>(&'a [u8]);

// A session key and its parameter. The key is not shown.
#[derive(Clone, Copy)]
struct Session<'a>(&'a [u8]);

// The code lists, by the names that the wire format gives them.
#[derive(Clone, Copy)]
struct KindName(u8);

#[derive(Clone, Copy)]
struct OperationName(u8);

/// A verdict by its number.
#[derive(Clone, Copy)]
pub struct VerdictName(pub u8);

/// An error by its number.
#[derive(Clone, Copy)]
pub struct ErrorName(pub u8);

impl fmt::Display for KindName {
    fn fmt<W: fmt::Write>(&self, f: &mut fmt::Formatter<W>) -> fmt::Result {
        match Kind::try_from(self.0) {
            Ok(Kind::Invoke) => write!(f, "invoke"),
            Ok(Kind::ReturnResult) => write!(f, "result"),
            Ok(Kind::ReturnError) => write!(f, "error"),
            Ok(Kind::Reject) => write!(f, "reject"),
            Err(_) => write!(f, "{}", self.0),
        }
    }
}

impl fmt::Display for OperationName {
    fn fmt<W: fmt::Write>(&self, f: &mut fmt::Formatter<W>) -> fmt::Result {
        match Operation::try_from(self.0) {
            Ok(Operation::AuthWtmUser) => write!(f, "authWtmUser"),
            Ok(Operation::WtatParam(Provider::Home)) => write!(f, "getWtatParam"),
            Ok(Operation::WtatParam(Provider::Server)) => write!(f, "wtatParamEnq"),
            Ok(Operation::WtanParam(Provider::Home)) => write!(f, "getWtanParam"),
            Ok(Operation::WtanParam(Provider::Server)) => write!(f, "wtanParamEnq"),
            Err(_) => write!(f, "{}", self.0),
        }
    }
}

impl fmt::Display for VerdictName {
    fn fmt<W: fmt::Write>(&self, f: &mut fmt::Formatter<W>) -> fmt::Result {
        match Verdict::try_from(self.0) {
            Ok(Verdict::Correct) => write!(f, "correct"),
            Ok(Verdict::Incorrect) => write!(f, "incorrect"),
            Err(_) => write!(f, "{}", self.0),
        }
    }
}

impl fmt::Display for ErrorName {
    fn fmt<W: fmt::Write>(&self, f: &mut fmt::Formatter<W>) -> fmt::Result {
        match ErrorCode::try_from(self.0) {
            Ok(ErrorCode::InvalidServedUserNr) => write!(f, "invalidServedUserNr"),
            Ok(ErrorCode::ParamNotAvailable) => write!(f, "paramNotAvailable"),
            Ok(ErrorCode::TemporarilyUnavailable) => write!(f, "temporarilyUnavailable"),
            Ok(ErrorCode::NotAuthorized) => write!(f, "notAuthorized"),
            Ok(ErrorCode::Unspecified) => write!(f, "unspecified"),
            Err(_) => write!(f, "{}", self.0),
        }
    }
}

impl fmt::Display for Unit<'_> {
    fn fmt<W: fmt::Write>(&self, f: &mut fmt::Formatter<W>) -> fmt::Result {
        match self.0.split_first_chunk::<8>() {
            Some((challenge, response)) => {
                let challenge = Bytes(challenge);
                let response = Bytes(response);
                write!(f, "unit of challenge {challenge} and response {response}")
            }
            None => write!(f, "unit that is cut"),
        }
    }
}

impl fmt::Display for Session<'_> {
    fn fmt<W: fmt::Write>(&self, f: &mut fmt::Formatter<W>) -> fmt::Result {
        match self.0.split_first_chunk::<16>() {
            Some((_, parameter)) => {
                let parameter = Bytes(parameter);
                write!(
                    f,
                    "session with parameter {parameter} and a key that is not shown"
                )
            }
            None => write!(f, "session that is cut"),
        }
    }
}

impl fmt::Display for Named<'_> {
    fn fmt<W: fmt::Write>(&self, f: &mut fmt::Formatter<W>) -> fmt::Result {
        match (self.field.tag, self.field.value) {
            (tags::KIND, [number]) => write!(f, "kind {}", KindName(*number)),
            (tags::ID, [high, low]) => {
                let id = u16::from_be_bytes([*high, *low]);
                write!(f, "invoke id {id}")
            }
            (tags::OPERATION, [number]) => write!(f, "operation {}", OperationName(*number)),
            (tags::USER, text) => write!(f, "user number {}", Digits(text)),
            (tags::CAN_COMPUTE, []) => write!(f, "can compute"),
            (tags::ALGORITHM, [number]) => write!(f, "algorithm {number}"),
            (tags::VERDICT, [number]) => write!(f, "verdict {}", VerdictName(*number)),
            (tags::ERROR, [number]) => write!(f, "error {}", ErrorName(*number)),
            (tags::PROBLEM, [number]) => write!(f, "problem {number}"),
            (tags::CHALLENGE, challenge) if self.with_values => {
                write!(f, "challenge {}", Bytes(challenge))
            }
            (tags::UNIT, unit) if self.with_values => write!(f, "{}", Unit(unit)),
            (tags::SESSION, session) if self.with_values => write!(f, "{}", Session(session)),
            (tags::RESPONSE, response) if self.with_values => {
                write!(f, "response {}", Bytes(response))
            }
            (tags::CHALLENGE, _) => write!(f, "a challenge that is not shown"),
            (tags::UNIT, _) => write!(f, "a unit that is not shown"),
            (tags::SESSION, _) => write!(f, "a session that is not shown"),
            (tags::RESPONSE, _) => write!(f, "a response that is not shown"),
            _ => write!(f, "another field"),
        }
    }
}

impl fmt::Display for Sent<'_> {
    fn fmt<W: fmt::Write>(&self, f: &mut fmt::Formatter<W>) -> fmt::Result {
        match &apdu::read(self.bytes) {
            Ok(_) => {
                for field in Reader::new(self.bytes) {
                    let with_values = self.with_values;
                    write!(f, ", {}", Named { field, with_values })?;
                }
                Ok(())
            }
            Err(NoApdu::RejectDue { id, problem }) => {
                let (id, problem): (u16, u8) = (id.number(), (*problem).into());
                write!(
                    f,
                    ", kind invoke, invoke id {id}, due a reject with problem {problem}"
                )
            }
            Err(NoApdu::Garbled) => match self.bytes.len() {
                1 => write!(f, ", 1 byte that is no APDU"),
                size => write!(f, ", {size} bytes that are no APDU"),
            },
        }
    }
}

impl Sent<'_> {
    /// Whether the bytes are an APDU, or an invoke that is due a reject.
    pub fn is_well_formed(&self) -> bool
        ensures { result ≡ is_well_formed (received_as self.now.bytes.now) }
    {
        !matches!(&apdu::read(self.bytes), Err(NoApdu::Garbled))
    }
}
