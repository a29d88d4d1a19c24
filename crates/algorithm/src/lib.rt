// Response algorithms. Whatever is proved over an algorithm is proved over its meaning alone.
#![tactic(auto)]

mod algorithm;
mod block;
mod card;
mod direction;
mod found;
mod operator;
mod row;
mod xtea;

pub use algorithm::{Algorithm, answer};
pub use card::{RecordedCard, Recording};
pub use direction::Direction;
pub use operator::Operator;
pub use row::{Row, challenge_key};
pub use xtea::{Xtea, encipher};
