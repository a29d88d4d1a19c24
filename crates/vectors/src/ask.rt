// Questions to an algorithm, and what is answered.
use crate::words;
use algorithm::{Algorithm, Direction, Operator, answer};
use anyhow::{Result, bail};
use std::fmt;
use std::str::SplitWhitespace;
use values::{Challenge, Parameter, Response, SessionKey, UserKey};

// A value that is compared.
#[derive(Clone, Copy)]
pub(crate) enum Value {
    Number(u8),
    Response(Response),
    Block([u8; 8]),
    Session(SessionKey),
}

impl fmt::Display for Value {
    fn fmt<W: fmt::Write>(&self, f: &mut fmt::Formatter<W>) -> fmt::Result {
        match self {
            Value::Number(number) => write!(f, "{number:02x}"),
            Value::Response(bytes) => write_hex(bytes, f),
            Value::Block(bytes) => write_hex(bytes, f),
            Value::Session(bytes) => write_hex(bytes, f),
        }
    }
}

fn write_hex<W: fmt::Write>(bytes: &[u8], f: &mut fmt::Formatter<W>) -> fmt::Result {
    for byte in bytes {
        write!(f, "{byte:02x}")?;
    }
    Ok(())
}

#[derive(Clone, Copy)]
pub(crate) enum Question {
    Number,
    Session {
        direction: Direction,
        key: UserKey,
        parameter: Parameter,
    },
    Response {
        session: SessionKey,
        challenge: Challenge,
    },
    Answer {
        direction: Direction,
        key: UserKey,
        parameter: Parameter,
        challenge: Challenge,
    },
}

// The layers over an algorithm by their masks, the one next to it first.
#[derive(Clone, Copy)]
pub(crate) enum Layers {
    None,
    One([u8; 8]),
    Two([u8; 8], [u8; 8]),
}

impl Question {
    // The question of a line that begins with this word.
    pub(crate) fn read(kind: &str, rest: &mut SplitWhitespace) -> Result<Question> {
        match kind {
            "number" => Ok(Question::Number),
            "session" => Ok(Question::Session {
                direction: words::direction(rest)?,
                key: words::bytes(rest)?,
                parameter: words::bytes(rest)?,
            }),
            "response" => Ok(Question::Response {
                session: words::bytes(rest)?,
                challenge: words::challenge(rest)?,
            }),
            "answer" => Ok(Question::Answer {
                direction: words::direction(rest)?,
                key: words::bytes(rest)?,
                parameter: words::bytes(rest)?,
                challenge: words::challenge(rest)?,
            }),
            _ => bail!("a line begins with another word"),
        }
    }

    // Asked of an algorithm, or through the layers over it.
    pub(crate) fn ask_through<A: Algorithm + Drop>(&self, layers: Layers, algorithm: A) -> Value {
        match layers {
            Layers::None => self.ask(algorithm),
            Layers::One(mask) => self.ask(Operator {
                below: algorithm,
                mask,
            }),
            Layers::Two(mask, upper) => self.ask(Operator {
                below: Operator {
                    below: algorithm,
                    mask,
                },
                mask: upper,
            }),
        }
    }

    fn ask<A: Algorithm + Drop>(&self, mut algorithm: A) -> Value {
        match self {
            Question::Number => Value::Number(algorithm.number()),
            Question::Session {
                direction,
                key,
                parameter,
            } => Value::Session(algorithm.session(*direction, key, parameter)),
            Question::Response { session, challenge } => {
                Value::Response(algorithm.response(session, challenge))
            }
            Question::Answer {
                direction,
                key,
                parameter,
                challenge,
            } => Value::Response(answer(&mut algorithm, *direction, key, parameter, challenge)),
        }
    }
}
