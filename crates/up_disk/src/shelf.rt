ghost use Rattle.std.specs.Prelude.{◌≡◌, ◌<◌, ◌≤◌, Some, None, length, slice_set, IfSome, IfOk};
ghost use Rattle.up_outside.specs.Cause.{HasCause};
ghost use Rattle.up_disk.specs.Left.{NothingPending};
ghost use Rattle.up_disk.specs.Shelved.{IfGiven, IfNotGiven, brought_as, with_last, OthersStay, AllStay};

use crate::{Disk, Failed};
use std::alloc::Global;
use up_num::Memory;

/// Where disks come from and where they go back to.
pub trait Shelf {
    ghost use Rattle.std.specs.Prelude.{ℕ, List, Option};
    ghost use Rattle.up_disk.specs.Shelved.{Brought};

    /// The disks of the shelf.
    type D: Disk + Send + Drop;

    /// The disk that the shelf holds under a name, where it tells that.
    ghost holds: { Self → List ℕ → Option Self.D };

    /// The disks that it brought, each as it was then.
    ghost brought: { Self → List (Brought Self.D) };

    /// For each disk that it brought the one that was last put back in its place.
    ghost back: { Self → List (Option Self.D) };

    /// How often a call failed. It never falls.
    ghost faults: { Self → ℕ };

    /// Gives the disk of that name, with so many blocks and nothing pending.
    fn bring(
        &mut self,
        alloc: Global,
        name: &[u8],
        blocks: u32,
    ) -> Result<Result<Self::D, Failed>, Memory>
        ensures held { IfGiven result (λ disk. IfSome (holds self.old name.now) (λ held. disk ≡ held)) }
        ensures count { IfGiven result (λ disk. Self.D.count disk ≡ blocks) }
        ensures still { IfGiven result (NothingPending Self.D.lasts Self.D.time Self.D.leaves Self.D.blocks) }
        ensures brought { IfGiven result (λ disk. brought self.new ≡ with_last (brought self.old) (brought_as name.now disk)) }
        ensures places { IfGiven result (λ _. back self.new ≡ with_last (back self.old) None) }
        ensures others { OthersStay (holds self.old) (holds self.new) name.now }
        ensures none { IfNotGiven result (brought self.new ≡ brought self.old) }
        ensures left { IfNotGiven result (back self.new ≡ back self.old) }
        ensures stays { IfNotGiven result (AllStay (holds self.old) (holds self.new)) }
        ensures later { faults self.old ≤ faults self.new }
        ensures cause { IfOk result (λ given. HasCause (faults self.old) (faults self.new) given) };

    /// Puts a disk back in the place of one that was brought. It can't fail.
    fn put_back(&mut self, place: u32, disk: Self::D)
        requires { place < length (back self.old) }
        ensures back { back self.new ≡ slice_set (back self.old) place (Some disk) }
        ensures brought { brought self.new ≡ brought self.old }
        ensures stays { AllStay (holds self.old) (holds self.new) }
        ensures faults { faults self.new ≡ faults self.old };
}
