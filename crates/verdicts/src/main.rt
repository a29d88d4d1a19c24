// Reads strings from standard input, each as the value of a record (a tag, two bytes of length and the
// string), and says of each on a line of its own what it is: an APDU, written back in hexadecimal; an
// invoke that is due a reject; or garbled.
#![tactic(auto)]

mod received_as;

use received_as::ReceivedAs;
use std::io::Read;
use wire::Reader;

fn main(rt: HostRuntime) -> anyhow::Result<()> {
    let mut input = Vec::new(rt.alloc());
    rt.stdin().read_to_end(&mut input)?;
    for string in Reader::new(&input) {
        println!(rt; "{}", ReceivedAs(apdu::read(string.value)))?;
    }
    Ok(())
}
