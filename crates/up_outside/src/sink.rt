ghost use Rattle.std.specs.Prelude.{◌≡◌, ◌<◌, [], length, IfOk, OnOk, OnErr, IsOk};
ghost use Rattle.std.specs.Io.{WritesAtMost};
ghost use Rattle.std.specs.Io.KnownBytes.{Appends, WriteAppends};
ghost use Rattle.up_outside.specs.Cause.{HasCause};
ghost use Rattle.up_outside.specs.Front.{AppendsFront};

use crate::Failed;

/// Where bytes go.
pub trait Sink {
    ghost use Rattle.std.specs.Prelude.{ℕ, List, Option};

    /// The bytes that were taken, where the sink tells them.
    ghost written: { Self → Option (List ℕ) };

    /// How often a call failed. It never falls, and stands where none failed.
    ghost faults: { Self → ℕ };

    /// Takes the first bytes of a piece, and says how many.
    fn push(&mut self, bytes: &[u8]) -> Result<usize, Failed>
        ensures bound { WritesAtMost result bytes.now }
        ensures some { IfOk result (λ count. 0 < length bytes.now → 0 < count) }
        ensures bytes { WriteAppends (written self.old) (written self.new) result bytes.now }
        ensures cause { HasCause (faults self.old) (faults self.new) result }
        ensures stands { OnOk result (faults self.new ≡ faults self.old) };
}

/// Pushes all of the bytes, in as many calls as that takes. After an error some first of them were taken.
pub fn push_all<K: Sink>(sink: &mut K, bytes: &[u8]) -> Result<(), Failed>
    ensures all { OnOk result (Appends (K.written sink.old) (K.written sink.new) bytes.now) }
    ensures front { OnErr result (AppendsFront (K.written sink.old) (K.written sink.new) bytes.now) }
    ensures cause { HasCause (K.faults sink.old) (K.faults sink.new) result }
    ensures stands { OnOk result (K.faults sink.new ≡ K.faults sink.old) }
    ensures no_call { bytes.now ≡ [] → IsOk result × (sink.new ≡ sink.old) }
{
    let mut rest = bytes;
    while !rest.is_empty() {
        let count = sink.push(rest)?;
        rest = &rest[count..];
    }
    Ok(())
}
