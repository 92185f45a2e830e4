use crate::advice::advise;
use std::alloc::Global;
use std::io::{self, Eprint};
use up_words::{front, parse_number, read_words};

/// Says on standard error what a status means, where it isn't the answer that was asked for. `told` has the
/// first bytes of what the program wrote.
pub fn explain<R: Eprint>(rt: &R, alloc: Global, status: u8, told: &[u8]) -> io::Result<()> {
    match status {
        2 => print_usage(rt),
        3 => print_fault(rt, alloc, told),
        4 => eprintln!(rt; "pagerd: standard input could not be read; nothing was written"),
        5 => eprintln!(rt;
            "pagerd: standard output took no more; it may have a first part of the text"
        ),
        7 => eprintln!(rt; "pagerd: memory ran out; nothing was written"),
        _ => Ok(()),
    }
}

/// A fault in a sentence, by the text that the program wrote of it.
fn print_fault<R: Eprint>(rt: &R, alloc: Global, told: &[u8]) -> io::Result<()> {
    let (line, _) = front(told);
    if let Ok(words) = read_words(alloc, line) {
        let number = parse_number(u64::from(u32::MAX), words.at(1)).unwrap_or(0);
        let why = advise(words.at(2));
        return eprintln!(rt; "pagerd: line {number}: {why} (docs/FORMATS.md has the grammar)");
    }
    eprintln!(rt; "pagerd: the text has a fault (docs/FORMATS.md has the grammar)")
}

fn print_usage<R: Eprint>(rt: &R) -> io::Result<()> {
    eprintln!(rt; "usage: pagerd step < SCRIPT")?;
    eprintln!(rt; "       pagerd check < JOURNALS")?;
    eprintln!(rt; "       pagerd gen SEED COUNT")?;
    eprintln!(rt; "  step   does the lines of a script in file order, on one thread,")?;
    eprintln!(rt; "         and prints its objects' journals")?;
    eprintln!(rt;
        "  check  says whether journals are legal, or which entry is the first at fault"
    )?;
    eprintln!(rt;
        "  gen    does a script that it makes of the number SEED, of COUNT rounds, and sums its journal up"
    )?;
    eprintln!(rt;
        "status: 0 done, or legal; 1 not legal; 2 other words than these; 3 the text has a"
    )?;
    eprintln!(rt;
        "        fault, or a line that isn't done yet; 4 reading failed; 5 writing failed;"
    )?;
    eprintln!(rt; "        7 memory ran out. docs/FORMATS.md describes both texts")
}
