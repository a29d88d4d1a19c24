// The records of tapes and of sheets, each read and written.
#![tactic(auto)]

mod numbers;
mod reports;
mod sheet;
mod tags;
mod tape;

pub use sheet::SheetRecord;
pub use tags::{CauseKind, ReportKind, SheetTag, TapeTag};
pub use tape::{Delivery, Initiation, NetworkProof, Reply, TapeRecord};
