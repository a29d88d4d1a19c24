// The values of which APDUs, algorithms, directories and calls speak.
#![tactic(auto)]

mod challenge;
mod draw;
mod invoke_id;
mod keys;
mod proof;
mod user;

pub use challenge::Challenge;
pub use draw::Draw;
pub use invoke_id::InvokeId;
pub use keys::{Parameter, Response, SessionKey, UserKey};
pub use proof::{AuthSession, AuthUnit};
pub use user::User;
