// Response algorithms, whatever they are. What needs a user's key (`session`, `answer`) and what answers challenges under a
// session key that is there (`response`) are functions apart.
ghost use Rattle.std.specs.Prelude.{◌≡◌};
ghost use Rattle.algorithm.specs.Meaning.{Meaning, IsSized, answered};
ghost use Rattle.algorithm.specs.Questions.{AnsweredAlike};

use crate::direction::Direction;
use values::{Challenge, Parameter, Response, SessionKey, UserKey};

/// An algorithm answers as its meaning says, refuses nothing, and means the same after each question. What it notes for
/// itself may change, so a question takes `&mut self`.
pub trait Algorithm {
    ghost meaning: { Self → Meaning };

    /// The number by which exchanges name it.
    fn number(&self) -> u8
        ensures { result ≡ (meaning self.now).number };

    /// The session key for a direction, from a user's key and a parameter.
    fn session(&mut self, direction: Direction, key: &UserKey, parameter: &Parameter) -> SessionKey
        ensures value { result ≡ (meaning self.old).session direction key.now parameter.now }
        ensures same { meaning self.new ≡ meaning self.old };

    /// The response to a challenge under a session key.
    fn response(&mut self, session: &SessionKey, challenge: &Challenge) -> Response
        ensures value { result ≡ (meaning self.old).response session.now challenge.now }
        ensures same { meaning self.new ≡ meaning self.old };

    ghost sized: { (algorithm : Self) → IsSized (meaning algorithm) };
}

/// The response to a challenge under a fresh session key. It rests on what is answered to its two questions alone.
#[tactic(auto, using(crate::proofs::Questions::answered_alike))]
pub fn answer<A: Algorithm>(
    algorithm: &mut A,
    direction: Direction,
    key: &UserKey,
    parameter: &Parameter,
    challenge: &Challenge,
) -> Response
    ensures value { result
        ≡ answered (A.meaning algorithm.old) direction key.now parameter.now challenge.now }
    ensures same { A.meaning algorithm.new ≡ A.meaning algorithm.old }
    ensures alike { AnsweredAlike }
{
    let session = algorithm.session(direction, key, parameter);
    algorithm.response(&session, challenge)
}
