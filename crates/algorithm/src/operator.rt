// An operator's layer over an algorithm, which may be a layer too.
ghost use Rattle.std.specs.Prelude.{◌≡◌};
ghost use Rattle.algorithm.specs.Operator.{masked, layered, layer_is_sized};

use crate::algorithm::Algorithm;
use crate::block::block;
use crate::direction::Direction;
use values::{Challenge, Parameter, Response, SessionKey, UserKey};

/// An operator's layer over any algorithm. Its number and session keys are those of the algorithm below, which is asked
/// each challenge changed by the mask.
#[derive(Drop)]
pub struct Operator<A> {
    /// What is asked.
    pub below: A,
    /// What each byte of a challenge is changed by, by exclusive or.
    pub mask: [u8; 8],
}

// A challenge changed by a mask.
fn masked(challenge: &Challenge, mask: &[u8; 8]) -> Challenge
    ensures { result ≡ masked challenge.now mask.now }
{
    let mut changed = block(challenge);
    for i in 0..changed.len() {
        changed[i] ^= mask[i];
    }
    Challenge::new(changed)
}

impl<A: Algorithm> Algorithm for Operator<A> {
    ghost meaning = { λ operator. layered (A.meaning operator.below) operator.mask };

    fn number(&self) -> u8 {
        self.below.number()
    }

    fn session(
        &mut self,
        direction: Direction,
        key: &UserKey,
        parameter: &Parameter,
    ) -> SessionKey {
        self.below.session(direction, key, parameter)
    }

    fn response(&mut self, session: &SessionKey, challenge: &Challenge) -> Response {
        self.below.response(session, &masked(challenge, &self.mask))
    }

    ghost sized = { λ operator. layer_is_sized operator.mask (A.sized operator.below) };
}
