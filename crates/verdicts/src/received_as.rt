// What a string is received as, in words.
use apdu::{Apdu, LEAST_BUFFER, NoApdu};
use std::fmt;

/// An APDU, as it is written back in hexadecimal; an invoke that is due a reject; or garbled.
#[derive(Clone, Copy)]
pub struct ReceivedAs(pub Result<Apdu, NoApdu>);

// An APDU as it is written, in hexadecimal.
#[derive(Clone, Copy)]
struct Written<'a>(&'a Apdu);

impl fmt::Display for Written<'_> {
    fn fmt<W: fmt::Write>(&self, f: &mut fmt::Formatter<W>) -> fmt::Result {
        let mut out = [0u8; LEAST_BUFFER];
        match apdu::write(self.0, &mut out) {
            Ok(size) => {
                write!(f, "APDU: ")?;
                for b in out.iter().take(size) {
                    write!(f, "{b:02X}")?;
                }
                Ok(())
            }
            Err(refusal) => write!(f, "APDU that is not written back: {refusal}"),
        }
    }
}

impl fmt::Display for ReceivedAs {
    fn fmt<W: fmt::Write>(&self, f: &mut fmt::Formatter<W>) -> fmt::Result {
        match &self.0 {
            Ok(apdu) => write!(f, "{}", Written(apdu)),
            Err(NoApdu::RejectDue { id, problem }) => {
                let id = id.number();
                let problem = u8::from(*problem);
                write!(f, "reject due: id {id}, problem {problem}")
            }
            Err(NoApdu::Garbled) => write!(f, "garbled"),
        }
    }
}
