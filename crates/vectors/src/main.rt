// Reads a table of values that response algorithms answer, asks the algorithms of this repository the same, and
// prints a line for each value: whether it is as in the table. Each line of the table is a question, and its last word is
// the value in hexadecimal; docs/algorithms.md has the lines.
#![tactic(auto)]

mod ask;
mod setup;
mod words;

use anyhow::{Context, bail};
use setup::Setup;
use std::io::Read;

fn main(rt: HostRuntime) -> anyhow::Result<()> {
    let mut table = String::new(rt.alloc());
    rt.stdin().read_to_string(&mut table)?;
    let mut setup = Setup::new(rt.alloc());
    let mut all_agree = true;
    for (place, line) in table.lines().enumerate() {
        let here = format!(in rt.alloc(); "line {}", place + 1)?;
        let found = setup.finding(rt.alloc(), line).context(here)?;
        if let Some(finding) = found {
            all_agree = all_agree && finding.agrees();
            println!(rt; "line {}: {finding}", place + 1)?;
        }
    }
    if !all_agree {
        bail!("not every value is as in the table");
    }
    Ok(())
}
