// The exchange: fit-out, entry into service, its dialogues and its calls.
#![tactic(auto)]

mod calls;
mod deliver;
mod dialogue;
mod enter_service;
mod fit_out;
mod handling;
mod in_service;
mod invokes;
mod outcome;
mod results;
mod server;
mod service;
mod state;
mod table;

pub use dialogue::Dialogue;
pub use fit_out::{FitOut, Timer};
pub use in_service::Exchange;
pub use invokes::{Asked, Owed, OwnNumber, PeerInvokeId};
pub use outcome::{Cause, Done, Report};
pub use service::{MOST_DIALOGUES, Service};
pub use state::State;
