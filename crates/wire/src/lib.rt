// Rows of fields, read and written, and the code lists of what stands in them.
#![tactic(auto)]

mod codes;
mod digits;
mod field_values;
mod fields;
/// A constant for each tag.
pub mod tags;
mod writer;

pub use codes::{ErrorCode, Kind, Operation, Problem, Provider, UnknownNumber, Verdict};
pub use digits::put_digits;
pub use field_values::{byte_in, bytes_in, flag_in, pair_in};
pub use fields::{Field, Reader};
pub use writer::Writer;
