// What a peer's invoke comes to.
use crate::outcome::Outcome;
use crate::state::State;
use apdu::Body;

#[derive(Clone, Copy)]
pub(crate) enum Handling {
    // It is answered at once.
    Answer(Body),
    // A dialogue opens in a state, with an outcome.
    Opens { state: State, outcome: Outcome },
}
