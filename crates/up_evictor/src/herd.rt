ghost use Rattle.std.specs.Prelude.{◌≡◌, ℕ, ◌<◌, ◌≤◌, ◌∷◌, List, length, IfOk, OnErr};
ghost use Rattle.up_evictor.specs.Relief.{reclaim_of};

use std::alloc::Global;
use up_num::{Memory, PageSeq};

/// One object was asked to give up at most `max` pages, all of this age class or older, and gave up so many.
#[derive(Clone, Copy, PartialEq, Eq, Debug)]
pub struct Reclaim {
    pub object: u32,
    pub limit: u32,
    pub max: u32,
    pub given: u32,
}

/// Objects, numbered from 0 on, whose pages can be made absent.
pub trait Herd {
    ghost use Rattle.std.specs.Prelude.{ℕ, List};
    ghost use Rattle.up_evictor.specs.declared.herd.Reclaim.{Reclaim};

    /// What says what the herd was made with.
    ghost Origin: { Type 0 };

    ghost origin: { Self → Origin };

    /// How many objects there are.
    ghost size: { Self → ℕ };

    /// What was asked for and given so far, newest first.
    ghost reclaims: { Self → List Reclaim };

    fn objects(&self) -> u32
        ensures { result ≡ size self.now };

    /// Makes at most `max` pages of an object absent, and says which. After want of memory none is.
    fn evict(&mut self, alloc: Global, object: u32, limit: u32, max: u32) -> Result<PageSeq, Memory>
        requires { object < size self.old }
        ensures bound { IfOk result (λ pages. length pages ≤ max) }
        ensures ok { IfOk result (λ pages. reclaims self.new ≡ reclaim_of object limit max (length pages) ∷ reclaims self.old) }
        ensures err { OnErr result (reclaims self.new ≡ reclaims self.old) }
        ensures size { size self.new ≡ size self.old }
        ensures origin { origin self.new ≡ origin self.old };
}
