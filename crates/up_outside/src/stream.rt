ghost use Rattle.std.specs.Prelude.{◌≡◌, ◌<◌, ◌≤◌, length, take, IfSome, IfNone};
ghost use Rattle.std.specs.Io.KnownBytes.{Appends, Keeps};
ghost use Rattle.up_outside.specs.Streams.{Stream};

use crate::{Failed, Sink, Source};
use std::io::{Read, Write};
use std::marker::Model;

/// A reader as a source. It tells the bytes that the reader tells.
#[derive(Drop)]
pub struct ReaderSource<R: Read> {
    reader: R,
    faults: u64,
}

impl<R: Read> Model for ReaderSource<R> {
    ghost use Rattle.up_outside.specs.Streams.{Stream};

    ghost Value = { Stream };

    ghost view = { λ source. record { bytes = R.remaining source.reader; faults = source.faults } };
}

impl<R: Read> ReaderSource<R> {
    pub fn new(reader: R) -> Self
        ensures { result ≡ record { bytes = R.remaining reader; faults = 0 } }
    {
        ReaderSource { reader, faults: 0 }
    }
}

impl<R: Read> Source for ReaderSource<R> {
    ghost left = { λ source. source.bytes };

    ghost faults = { λ source. source.faults };

    fn pull(&mut self, buf: &mut [u8]) -> Result<usize, Failed> {
        match self.reader.read(buf) {
            Ok(count) => Ok(count),
            Err(_) => {
                self.faults = self.faults.saturating_add(1);
                Err(Failed)
            }
        }
    }
}

/// A writer as a sink. It tells the bytes that the writer tells.
///
/// Each push flushes before it writes, since a flush that failed behind the write would leave bytes that no answer
/// tells. It flushes behind the write too; where that fails, the next push tells it.
#[derive(Drop)]
pub struct WriterSink<W: Write> {
    writer: W,
    faults: u64,
}

impl<W: Write> Model for WriterSink<W> {
    ghost use Rattle.up_outside.specs.Streams.{Stream};

    ghost Value = { Stream };

    ghost view = { λ sink. record { bytes = W.contents sink.writer; faults = sink.faults } };
}

impl<W: Write> WriterSink<W> {
    pub fn new(writer: W) -> Self
        ensures { result ≡ record { bytes = W.contents writer; faults = 0 } }
    {
        WriterSink { writer, faults: 0 }
    }
}

impl<W: Write> Sink for WriterSink<W> {
    ghost written = { λ sink. sink.bytes };

    ghost faults = { λ sink. sink.faults };

    /// A write that takes none of some bytes is a failure too.
    fn push(&mut self, bytes: &[u8]) -> Result<usize, Failed> {
        if let Some(count) = write_through(&mut self.writer, bytes) {
            return Ok(count);
        }
        self.faults = self.faults.saturating_add(1);
        Err(Failed)
    }
}

// Flushes, writes, and flushes again; None where nothing was taken of some bytes.
fn write_through<W: Write>(writer: &mut W, bytes: &[u8]) -> Option<usize>
    ensures bound { IfSome result (λ count. count ≤ length bytes.now) }
    ensures some { IfSome result (λ count. 0 < length bytes.now → 0 < count) }
    ensures taken { IfSome result (λ count. Appends (W.contents writer.old) (W.contents writer.new) (take count bytes.now)) }
    ensures kept { IfNone result (Keeps (W.contents writer.old) (W.contents writer.new)) }
{
    writer.flush().ok()?;
    let count = writer.write(bytes).ok()?;
    if count == 0 && !bytes.is_empty() {
        return None;
    }
    let _ = writer.flush();
    Some(count)
}
