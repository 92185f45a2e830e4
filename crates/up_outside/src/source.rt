ghost use Rattle.std.specs.Prelude.{◌≡◌, ℕ, ◌+◌, ◌<◌, ◌≤◌, ◌^◌, ◌++◌, List, IfOk, IfErr, OnOk, vec_len};
ghost use Rattle.std.specs.Io.{ReadsAtMost};
ghost use Rattle.std.specs.Io.KnownBytes.{Consumes, IsAtEnd, ReadConsumes};
ghost use Rattle.up_outside.specs.Cause.{HasCause, Rose};

use crate::Failed;
use std::alloc::Global;

/// Where bytes come from.
pub trait Source {
    ghost use Rattle.std.specs.Prelude.{ℕ, List, Option};

    /// The bytes not yet read, where the source tells them.
    ghost left: { Self → Option (List ℕ) };

    /// How often a call failed. It never falls, and stands where none failed.
    ghost faults: { Self → ℕ };

    /// Reads bytes to the start of the buffer, and says how many. For a buffer with room, none means the end
    /// of input.
    fn pull(&mut self, buf: &mut [u8]) -> Result<usize, Failed>
        ensures bound { ReadsAtMost result buf.new }
        ensures bytes { ReadConsumes (left self.old) (left self.new) result buf.new }
        ensures cause { HasCause (faults self.old) (faults self.new) result }
        ensures stands { OnOk result (faults self.new ≡ faults self.old) };
}

/// Why a source was not read to its end.
#[derive(Clone, Copy, PartialEq, Eq, Debug)]
pub enum ReadStop {
    Memory,
    Source,
}

// How many bytes are asked for at once.
const PIECE: usize = 4096;

/// Reads until the end of input, or until it has one byte more than the limit, so that a caller sees by the
/// length whether the input was longer. After an error the bytes that were read are lost.
pub fn read_to<S: Source>(alloc: Global, source: &mut S, limit: usize) -> Result<Vec<u8>, ReadStop>
    requires { limit ≤ 2 ^ 32 }
    ensures bound { IfOk result (λ read. vec_len read ≤ limit + 1) }
    ensures bytes { IfOk result (λ read. Consumes (S.left source.old) (S.left source.new) read.items) }
    ensures whole { IfOk result (λ read. vec_len read ≤ limit → IsAtEnd (S.left source.new)) }
    ensures later { S.faults source.old ≤ S.faults source.new }
    ensures stands { OnOk result (S.faults source.new ≡ S.faults source.old) }
    ensures memory { IfErr result (λ stop. stop ≡ ReadStop.Memory → S.faults source.new ≡ S.faults source.old) }
    ensures cause { IfErr result (λ stop. stop ≡ ReadStop.Source → Rose (S.faults source.old) (S.faults source.new)) }
{
    let mut read = Vec::new(alloc);
    while read.len() <= limit {
        if read_piece(source, &mut read, limit + 1)? == 0 {
            break;
        }
    }
    Ok(read)
}

// Reads one piece behind the bytes that were read, of which there are then at most `most`. None is the end of input.
fn read_piece<S: Source>(source: &mut S, read: &mut Vec<u8>, most: usize) -> Result<usize, ReadStop>
    requires { vec_len read.old < most }
    ensures grown { IfOk result (λ count. vec_len read.new ≡ vec_len read.old + count) }
    ensures bound { IfOk result (λ count. vec_len read.old + count ≤ most) }
    ensures bytes { IfOk result (λ count. (piece : List ℕ) × (read.new.items ≡ read.old.items ++ piece) × Consumes (S.left source.old) (S.left source.new) piece) }
    ensures end { IfOk result (λ count. count ≡ 0 → IsAtEnd (S.left source.new)) }
    ensures later { S.faults source.old ≤ S.faults source.new }
    ensures stands { OnOk result (S.faults source.new ≡ S.faults source.old) }
    ensures memory { IfErr result (λ stop. stop ≡ ReadStop.Memory → S.faults source.new ≡ S.faults source.old) }
    ensures cause { IfErr result (λ stop. stop ≡ ReadStop.Source → Rose (S.faults source.old) (S.faults source.new)) }
{
    let mut piece = [0; PIECE];
    let room = (most - read.len()).min(PIECE);
    let Ok(count) = source.pull(&mut piece[..room]) else {
        return Err(ReadStop::Source);
    };
    if read.extend_from_slice(&piece[..count]).is_err() {
        return Err(ReadStop::Memory);
    }
    Ok(count)
}
