//! The top call where outsides fail, and words for which nothing is read. All other runs are cases of `cases/`.

use crate::top::alone;
use std::alloc::Global;
use std::test::Fail;
use up_outside::{MemSink, MemSource, PlainSource};

/// The first worked script: a blocked read, its packet, the supply and the go.
const FIRST: &str =
    "pagerd-script 1\nframes 8\nobject a 1 - free -\nuser u a\nuser v a\npager p a\nevictor e\nsteps\nu read a 0 1\np packet a\np supply a 0 1 61*4096\nu go\n";
/// Its journal.
const FIRST_JOURNAL: &str =
    "pagerd-journal 1\njournal a 1 - free 2 1 -\n0 0 0 read 0 1 0 - -> blocked 0\n1 2 0 packet -> packet read 0 1\n2 2 0 supply 0 1 61*4096 f1 -> took 1 woke 0\n3 0 0 retry 0 - -> bytes 61*1\nend 4\ndone\n";

fn words_of(alloc: Global, line: &str) -> Result<Vec<String>, Fail> {
    let mut words = Vec::new(alloc);
    for word in line.split_whitespace() {
        words.push(String::from_str(alloc, word)?)?;
    }
    Ok(words)
}

/// A source that fails at once shows that it isn't read.
#[test]
fn other_words_are_told(rt: HostRuntime) -> Result<(), Fail> {
    let alloc = rt.alloc();
    for line in ["", "run", "step x", "check step", "gen 07 1"] {
        let mut source = MemSource::new(alloc, FIRST.as_bytes(), &[1], 100)?;
        let mut sink = MemSink::new(alloc, &[], 100)?;
        let status = alone(
            alloc,
            words_of(alloc, line)?.as_slice(),
            &mut source,
            &mut sink,
        );
        assert_eq!(rt; status, 2, "{line}");
        assert!(rt; sink.written() == b"words\n".as_slice(), "{line}");
    }
    Ok(())
}

/// The script by a source that gives one byte a call, and fails at this call.
#[test]
fn a_source_that_fails_is_status_4(rt: HostRuntime) -> Result<(), Fail> {
    let alloc = rt.alloc();
    // A call for each byte, and one that finds the end.
    let last = FIRST.len() as u32 + 1;
    for (fail, expected) in [(1, 4), (last / 2, 4), (last, 4), (last + 1, 0)] {
        let mut source = MemSource::new(alloc, FIRST.as_bytes(), &[fail], 1000)?.by_byte();
        let mut sink = MemSink::new(alloc, &[], 1000)?;
        let words = words_of(alloc, "step")?;
        let status = alone(alloc, words.as_slice(), &mut source, &mut sink);
        assert_eq!(rt; status, expected, "{fail}");
        if expected == 4 {
            assert!(rt; sink.written().is_empty(), "{fail}");
        } else {
            assert!(rt; sink.written() == FIRST_JOURNAL.as_bytes(), "{fail}");
        }
    }
    Ok(())
}

/// A sink that takes one byte a call, and fails at this call.
#[test]
fn a_sink_that_fails_is_status_5(rt: HostRuntime) -> Result<(), Fail> {
    let alloc = rt.alloc();
    let last = FIRST_JOURNAL.len();
    for (fail, expected) in [(1, 5), (last / 2, 5), (last, 5), (last + 1, 0)] {
        let mut source = PlainSource::new(alloc, FIRST.as_bytes())?;
        let mut sink = MemSink::new(alloc, &[fail as u32], 1000)?.by_byte();
        let words = words_of(alloc, "step")?;
        let status = alone(alloc, words.as_slice(), &mut source, &mut sink);
        assert_eq!(rt; status, expected, "{fail}");
        assert_eq!(rt; sink.written().len(), (fail - 1).min(last), "{fail}");
        assert!(rt;
            FIRST_JOURNAL.as_bytes().starts_with(sink.written()),
            "{fail}"
        );
    }
    Ok(())
}
