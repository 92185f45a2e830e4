//! Makes the calls of worked journals on sites, each over a disk in memory. Standard input has for each a line
//! `disk BYTES CALL`, with the bytes of the disk at first and the number of the call on it that fails, or 0, and
//! a text of one journal. Its entries say who acts and which call or step is made, and nothing else; of each is
//! written:
//!
//! the text of the journal that came of it;
//!
//! `judged VERDICT VERDICT`: what the replay says of that, and what looking back says;
//!
//! `block PAGE settled|unsettled newest|old BYTES` for each page that the object may have: whether it is settled,
//! whether its block has its newest bytes, and the block's bytes.
#![tactic(auto)]

mod making;
mod newest;
mod report;
mod steps;

use report::report;
use std::alloc::Global;
use std::io::{self, Write};

fn main(rt: HostRuntime) -> io::Result<()> {
    let alloc = rt.alloc();
    let mut disk = String::new(alloc);
    let mut text = Vec::new(alloc);
    for line in rt.lines(alloc) {
        let line = line?;
        if line.starts_with("disk ") {
            disk = line;
        } else if !line.starts_with("#") {
            put_line(&mut text, line.as_bytes())?;
            if line.starts_with("done") {
                print_report(&rt, alloc, disk.as_bytes(), text.as_slice())?;
                text = Vec::new(alloc);
            }
        }
    }
    Ok(())
}

fn put_line(text: &mut Vec<u8>, line: &[u8]) -> io::Result<()> {
    text.extend_from_slice(line)?;
    text.push(b'\n')?;
    Ok(())
}

/// What came of the calls of one journal on this disk.
fn print_report(rt: &HostRuntime, alloc: Global, disk: &[u8], text: &[u8]) -> io::Result<()> {
    let told = report(alloc, disk, text)?;
    let told = str::from_utf8(told.as_slice()).unwrap_or("-");
    print!(rt; "{told}")
}
