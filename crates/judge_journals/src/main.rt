//! Judges worked journals by both programs, and does their calls anew. Standard input has texts of journals one after the other, with
//! lines between that begin with `#`; of each journal a line is written:
//!
//! `NAME ENTRIES VERDICT VERDICT again REPLIES changes TOLD`: what the replay says and what looking back says; how many replies a
//! new object gives again to lists of requests; and of how many entries both programs tell that it has another reply, and the one
//! that stood there.
//!
//! `NAME end ENTRY of NUMBER: VERDICT; VERDICT` for each end of a numbered journal, and each other number up to that of the next begin: what
//! both programs say where the end names that one. A verdict is `legal`, or the first entry at fault and the reply that is due there.
#![tactic(auto)]

mod changing;
mod judging;
mod listing;
mod texts;

use judging::report;
use std::alloc::Global;
use std::io;

fn main(rt: HostRuntime) -> io::Result<()> {
    let alloc = rt.alloc();
    let mut version = String::new(alloc);
    let mut lines = Vec::new(alloc);
    for line in rt.lines(alloc) {
        let line = line?;
        if line.starts_with("pagerd-journal ") {
            version = line;
        } else if line.starts_with("journal ") {
            lines = Vec::new(alloc);
            lines.push(version.clone()?)?;
            lines.push(line)?;
        } else if line.starts_with("end ") {
            print_report(&rt, alloc, lines.as_slice())?;
        } else if !line.starts_with("#") {
            lines.push(line)?;
        }
    }
    Ok(())
}

/// Judges the journal of these lines, which have no end yet.
fn print_report(rt: &HostRuntime, alloc: Global, lines: &[String]) -> io::Result<()> {
    let told = report(alloc, lines)?;
    print!(rt; "{told}")
}
