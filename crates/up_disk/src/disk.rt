ghost use Rattle.std.specs.Prelude.{◌≡◌, ◌+◌, ◌<◌, ◌≤◌, Some, true, length, slice_get, slice_set, OnOk, OnErr};
ghost use Rattle.up_outside.specs.Cause.{HasCause};
ghost use Rattle.up_disk.specs.Left.{IsOldOrWritten, OnlyLeaves, AddsNone, AddsWritten};

use crate::Failed;

/// Blocks of 4,096 bytes. A block write is atomic, and a stop leaves in each block any one of the contents that it
/// had since the last sync that succeeded. What the clauses say of images that a stop may leave is an upper bound.
pub trait Disk {
    ghost use Rattle.std.specs.Prelude.{ℕ, Bool, List};

    /// Whether disks of this type tell their blocks.
    ghost tells: { Bool };

    /// Whether disks of this type tell what a stop leaves.
    ghost lasts: { Bool };

    /// How many blocks the disk has.
    ghost count: { Self → ℕ };

    /// What reads give, where the disk tells it.
    ghost blocks: { Self → List (List ℕ) };

    /// How often a call failed. It never falls.
    ghost faults: { Self → ℕ };

    /// How often it was called, as far as the disk counts that.
    ghost calls: { Self → ℕ };

    /// A time, where the disk tells what a stop leaves. It never falls.
    ghost time: { Self → ℕ };

    /// The images that a stop at some one moment since this time may leave.
    ghost leaves: { Self → ℕ → List (List ℕ) → Type 0 };

    /// Reads a block to a buffer of its size.
    fn read_block(&mut self, number: u32, out: &mut [u8]) -> Result<(), Failed>
        requires number { number < count self.old }
        requires whole { length out.old ≡ 4096 }
        ensures gives { OnOk result (tells ≡ true → slice_get (blocks self.old) number ≡ Some out.new) }
        ensures same { tells ≡ true → blocks self.new ≡ blocks self.old }
        ensures count { count self.new ≡ count self.old }
        ensures cause { HasCause (faults self.old) (faults self.new) result }
        ensures once { calls self.new ≤ calls self.old + 1 }
        ensures later { lasts ≡ true → time self.old ≤ time self.new }
        ensures left { lasts ≡ true → AddsNone (leaves self.old) (leaves self.new) (time self.old) };

    /// Writes a block. After an error the block is the old one or the new one.
    fn write_block(&mut self, number: u32, bytes: &[u8]) -> Result<(), Failed>
        requires number { number < count self.old }
        requires whole { length bytes.now ≡ 4096 }
        ensures puts { OnOk result (tells ≡ true → blocks self.new ≡ slice_set (blocks self.old) number bytes.now) }
        ensures failed { OnErr result (tells ≡ true → IsOldOrWritten (blocks self.old) (blocks self.new) number bytes.now) }
        ensures count { count self.new ≡ count self.old }
        ensures cause { HasCause (faults self.old) (faults self.new) result }
        ensures once { calls self.new ≤ calls self.old + 1 }
        ensures later { lasts ≡ true → time self.old ≤ time self.new }
        ensures left { lasts ≡ true → AddsWritten (leaves self.old) (leaves self.new) (time self.old) number bytes.now };

    /// After Ok a stop leaves nothing but what reads give.
    fn sync(&mut self) -> Result<(), Failed>
        ensures kept { OnOk result (lasts ≡ true → OnlyLeaves (leaves self.new (time self.new)) (blocks self.new)) }
        ensures same { tells ≡ true → blocks self.new ≡ blocks self.old }
        ensures count { count self.new ≡ count self.old }
        ensures cause { HasCause (faults self.old) (faults self.new) result }
        ensures once { calls self.new ≤ calls self.old + 1 }
        ensures later { lasts ≡ true → time self.old ≤ time self.new }
        ensures left { lasts ≡ true → AddsNone (leaves self.old) (leaves self.new) (time self.old) };

    /// Blocks that are told are as many as the disk has.
    ghost whole: { (disk : Self) → tells ≡ true → length (blocks disk) ≡ count disk };

    /// A disk that tells what a stop leaves tells its blocks.
    ghost told: { lasts ≡ true → tells ≡ true };

    /// What may be left since a later time may be left since an earlier one.
    ghost earlier: { (disk : Self) (early late : ℕ) (image : List (List ℕ)) → lasts ≡ true
        → early ≤ late → leaves disk late image → leaves disk early image };

    /// A stop now may leave what reads give.
    ghost now: { (disk : Self) → lasts ≡ true → leaves disk (time disk) (blocks disk) };

    /// Each image that may be left has all blocks.
    ghost sized: { (disk : Self) (since : ℕ) (image : List (List ℕ)) → lasts ≡ true
        → leaves disk since image → length image ≡ count disk };
}
