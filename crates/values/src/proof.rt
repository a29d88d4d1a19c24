// What a user, or the network, is checked by.
ghost use Rattle.std.specs.Prelude.{◌≡◌, ◌+◌};
ghost use Rattle.wire.specs.Fields.{head_size, field};
ghost use Rattle.wire.specs.Fronts.{HasRoom, InOneBuffer, Wrote};
ghost use Rattle.values.specs.Sizes.{challenge_size, response_size, session_key_size, parameter_size};
ghost use Rattle.values.specs.Proof.{unit_value, session_value, unit_of, session_of, UnitSized, SessionSized};

use crate::challenge::Challenge;
use crate::keys::{Parameter, Response, SessionKey};
use wire::{Writer, pair_in};

/// A challenge and the response that is expected to it.
#[derive(Clone, Copy)]
pub struct AuthUnit {
    /// What the user is asked, 8 bytes.
    pub challenge: Challenge,
    /// What the user answers if it is who it says, 4 bytes.
    pub response: Response,
}

/// A session key and the parameter that it was made with.
#[derive(Clone, Copy)]
pub struct AuthSession {
    /// What responses are computed with, 16 bytes.
    pub key: SessionKey,
    /// What the key was made with, beside the user's key, 8 bytes.
    pub parameter: Parameter,
}

impl AuthUnit {
    /// The unit in the value of a field: a challenge of 8 bytes, and a response of 4.
    pub fn read(value: &[u8]) -> Option<AuthUnit>
        ensures { result ≡ unit_of value.now }
    {
        let (challenge, response) = pair_in(value)?;
        Some(AuthUnit {
            challenge: Challenge::new(challenge),
            response,
        })
    }

    /// Writes it as a field of 15 bytes in all.
    #[inline(always)]
    pub fn write(&self, tag: u8, writer: &mut Writer<'_>)
        requires { HasRoom writer.old (head_size + (challenge_size + response_size)) }
        ensures same_buffer { InOneBuffer writer.old writer.new }
        ensures wrote { Wrote writer.old (field tag (unit_value self.now)) writer.new }
        ensures sized { UnitSized self.now }
    {
        writer.pair(tag, self.challenge.bytes(), &self.response);
    }
}

impl AuthSession {
    /// The session in the value of a field: a session key of 16 bytes, and a parameter of 8.
    pub fn read(value: &[u8]) -> Option<AuthSession>
        ensures { result ≡ session_of value.now }
    {
        let (key, parameter) = pair_in(value)?;
        Some(AuthSession { key, parameter })
    }

    /// Writes it as a field of 27 bytes in all.
    #[inline(always)]
    pub fn write(&self, tag: u8, writer: &mut Writer<'_>)
        requires { HasRoom writer.old (head_size + (session_key_size + parameter_size)) }
        ensures same_buffer { InOneBuffer writer.old writer.new }
        ensures wrote { Wrote writer.old (field tag (session_value self.now)) writer.new }
        ensures sized { SessionSized self.now }
    {
        writer.pair(tag, &self.key, &self.parameter);
    }
}
