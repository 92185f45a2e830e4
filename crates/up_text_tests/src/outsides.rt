use std::collections::VecDeque;
use std::io::{self, ErrorKind, Read, Write};
use std::test::Fail;
use up_outside::{
    Failed, MemSink, MemSource, PlainSource, ReadStop, ReaderSource, Sink, Source, WriterSink,
    push_all, read_to,
};

#[test]
fn reads_to_the_end_or_one_byte_past_the_limit(rt: HostRuntime) -> Result<(), Fail> {
    for (limit, want) in [
        (0, "h"),
        (3, "hell"),
        (4, "hello"),
        (5, "hello"),
        (9, "hello"),
    ] {
        let mut source = MemSource::new(rt.alloc(), b"hello", &[], 2)?;
        let read = read_to(rt.alloc(), &mut source, limit)?;
        assert_eq!(rt; read.as_slice(), want.as_bytes(), "limit {limit}");
        let mut slow = MemSource::new(rt.alloc(), b"hello", &[], 6)?.by_byte();
        let read = read_to(rt.alloc(), &mut slow, limit)?;
        assert_eq!(rt; read.as_slice(), want.as_bytes(), "limit {limit}, by bytes");
    }
    Ok(())
}

#[test]
fn a_source_fails_at_the_calls_that_it_is_told(rt: HostRuntime) -> Result<(), Fail> {
    for call in [1, 2, 4] {
        let mut source = MemSource::new(rt.alloc(), b"abc", &[call], 9)?.by_byte();
        let stop = read_to(rt.alloc(), &mut source, 9).err();
        assert_eq!(rt; stop, Some(ReadStop::Source), "call {call}");
    }
    // The fourth call finds the end of input; there is no room for it.
    let mut source = MemSource::new(rt.alloc(), b"abc", &[], 3)?.by_byte();
    let stop = read_to(rt.alloc(), &mut source, 9).err();
    assert_eq!(rt; stop, Some(ReadStop::Source));
    // After a failure the source goes on with what was left.
    let mut source = MemSource::new(rt.alloc(), b"abc", &[1], 9)?;
    let mut buf = [0; 2];
    assert_eq!(rt; source.pull(&mut buf), Err(Failed));
    assert_eq!(rt; source.pull(&mut buf), Ok(2));
    assert_eq!(rt; buf.as_slice(), b"ab".as_slice());
    Ok(())
}

#[test]
fn a_plain_source_gives_its_bytes_in_pieces(rt: HostRuntime) -> Result<(), Fail> {
    let mut bytes = Vec::new(rt.alloc());
    bytes.resize(5000, 7u8)?;
    let mut source = PlainSource::new(rt.alloc(), bytes.as_slice())?;
    let read = read_to(rt.alloc(), &mut source, 6000)?;
    assert_eq!(rt; read.as_slice(), bytes.as_slice());
    assert_eq!(rt; source.pull(&mut [0; 4]), Ok(0));
    Ok(())
}

#[test]
fn pushes_all_or_up_to_a_failure(rt: HostRuntime) -> Result<(), Fail> {
    let mut sink = MemSink::new(rt.alloc(), &[], 5)?;
    assert_eq!(rt; push_all(&mut sink, b"hel"), Ok(()));
    assert_eq!(rt; push_all(&mut sink, b""), Ok(()));
    assert_eq!(rt; push_all(&mut sink, b"lo"), Ok(()));
    assert_eq!(rt; sink.written(), b"hello".as_slice());
    assert_eq!(rt; sink.push(b""), Ok(0));
    assert_eq!(rt; push_all(&mut sink, b"!"), Err(Failed));
    let mut narrow = MemSink::new(rt.alloc(), &[], 3)?;
    assert_eq!(rt; push_all(&mut narrow, b"hello"), Err(Failed));
    assert_eq!(rt; narrow.written(), b"hel".as_slice());
    Ok(())
}

#[test]
fn a_sink_fails_at_the_calls_that_it_is_told(rt: HostRuntime) -> Result<(), Fail> {
    for (call, want) in [(1, ""), (2, "a"), (3, "ab")] {
        let mut sink = MemSink::new(rt.alloc(), &[call], 9)?.by_byte();
        assert_eq!(rt; push_all(&mut sink, b"abc"), Err(Failed), "call {call}");
        assert_eq!(rt; sink.written(), want.as_bytes(), "call {call}");
        assert_eq!(rt; push_all(&mut sink, b"z"), Ok(()), "call {call}");
    }
    Ok(())
}

#[test]
fn readers_and_writers_of_std(rt: HostRuntime) -> Result<(), Fail> {
    let mut bytes = VecDeque::new(rt.alloc());
    bytes.write_all(b"hello")?;
    let read = read_to(rt.alloc(), &mut ReaderSource::new(bytes), 9)?;
    assert_eq!(rt; read.as_slice(), b"hello".as_slice());
    let mut written = Vec::new(rt.alloc());
    assert_eq!(rt;
        push_all(&mut WriterSink::new(&mut written), b"hello"),
        Ok(())
    );
    assert_eq!(rt; written.as_slice(), b"hello".as_slice());
    Ok(())
}

// What a broken reader or writer does.
#[derive(Clone, Copy, Drop)]
enum Broken {
    Read,
    Write,
    WritesNothing,
    Flush,
}

impl Read for Broken {
    fn read(&mut self, buf: &mut [u8]) -> io::Result<usize> {
        match self {
            Broken::Read => Err(io::Error::from(ErrorKind::Other)),
            Broken::Write | Broken::WritesNothing | Broken::Flush => Ok(0),
        }
    }
}

impl Write for Broken {
    fn write(&mut self, buf: &[u8]) -> io::Result<usize> {
        match self {
            Broken::Write => Err(io::Error::from(ErrorKind::Other)),
            Broken::WritesNothing => Ok(0),
            Broken::Read | Broken::Flush => Ok(buf.len()),
        }
    }

    fn flush(&mut self) -> io::Result<()> {
        match self {
            Broken::Flush => Err(io::Error::from(ErrorKind::Other)),
            Broken::Read | Broken::Write | Broken::WritesNothing => Ok(()),
        }
    }
}

#[test]
fn failures_of_std_are_told(rt: HostRuntime) -> Result<(), Fail> {
    let mut source = ReaderSource::new(Broken::Read);
    assert_eq!(rt; source.pull(&mut [0; 4]), Err(Failed));
    assert_eq!(rt;
        read_to(rt.alloc(), &mut source, 9).err(),
        Some(ReadStop::Source)
    );
    for broken in [Broken::Write, Broken::WritesNothing, Broken::Flush] {
        let mut sink = WriterSink::new(broken);
        assert_eq!(rt; sink.push(b"abc"), Err(Failed));
        assert_eq!(rt; push_all(&mut sink, b"abc"), Err(Failed));
    }
    assert_eq!(rt; WriterSink::new(Broken::WritesNothing).push(b""), Ok(0));
    Ok(())
}
