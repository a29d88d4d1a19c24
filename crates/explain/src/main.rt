// Reads a tape from standard input and says in words what each record asks and what comes of it. With the name of a file, that
// file is the sheet, from wherever it comes; with none the sheet is made here.
#![tactic(auto)]

mod bytes;
mod came;
mod digits;
mod progress;
mod recorded;
mod sent;

use came::Came;
use progress::Progress;
use recorded::Recorded;
use records::SheetRecord;
use sheet::sheet;
use std::io::Read;
use std::{env, fs, io};
use wire::{Field, Reader};

// A line for a record of the tape, if there is one, and a record of the sheet, if there is one.
fn print_line(
    rt: &HostRuntime,
    asked: Option<Field<'_>>,
    progress: Progress,
    came: Option<Field<'_>>,
) -> io::Result<()> {
    let came = Came(came);
    match asked {
        Some(field) => println!(rt; "{}: {came}", Recorded { field, progress }),
        None => println!(rt; "cut record: {came}"),
    }
}

// A line for each record that the run took, whose own sheet was `made`, with the record of the sheet that is shown; and for
// each that the sheet shown has more. How much of a record is shown goes by the run alone.
fn explain(rt: &HostRuntime, tape: &[u8], made: &[u8], shown: &[u8]) -> io::Result<()> {
    let mut asked = Reader::new(tape);
    let mut outcomes = Reader::new(shown);
    for found in Reader::new(made) {
        let progress = Progress::of(&SheetRecord::read(found));
        print_line(rt, asked.next(), progress, outcomes.next())?;
    }
    while let Some(outcome) = outcomes.next() {
        match asked.next() {
            Some(field) => print_line(rt, Some(field), Progress::Nowhere, Some(outcome))?,
            None => println!(rt; "no record: {}", Came(Some(outcome)))?,
        }
    }
    if !outcomes.is_done() {
        println!(rt; "cut record of the sheet")?;
    }
    Ok(())
}

fn main(rt: HostRuntime) -> anyhow::Result<()> {
    let mut tape = Vec::new(rt.alloc());
    rt.stdin().read_to_end(&mut tape)?;
    let mut made = Vec::new(rt.alloc());
    sheet(&tape, &mut made)?;
    match env::args(&rt)?.skip(1).next() {
        None => explain(&rt, &tape, &made, &made)?,
        Some(name) => explain(&rt, &tape, &made, &fs::read(&rt, name)?)?,
    }
    Ok(())
}
