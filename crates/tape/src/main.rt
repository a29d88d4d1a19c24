// Reads a tape from standard input and writes its sheet to standard output.
#![tactic(auto)]

use sheet::sheet;
use std::alloc::Global;
use std::io::{Read, Write};

// Room for a long tape from the start, where there is memory for it: growing costs a copy each time.
fn roomy(heap: Global) -> Vec<u8> {
    Vec::with_capacity(heap, 67_108_864).unwrap_or_else(|_| Vec::new(heap))
}

fn main(rt: HostRuntime) -> anyhow::Result<()> {
    let mut tape = roomy(rt.alloc());
    rt.stdin().read_to_end(&mut tape)?;
    let mut made = Vec::with_capacity(rt.alloc(), tape.len())?;
    sheet(&tape, &mut made)?;
    rt.stdout().write_all(&made)?;
    Ok(())
}
