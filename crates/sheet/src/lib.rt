// A tape goes in, a sheet comes out.
#![tactic(auto)]

mod bench;
mod outcomes;
mod run;

pub use run::sheet;
