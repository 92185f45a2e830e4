ghost use Rattle.std.specs.Prelude.{◌≡◌, ◌<◌, true, length, IfOk, IfSome};
ghost use Rattle.up_steps.specs.Handed.{births_in, AllLegal};
ghost use Rattle.up_steps.specs.Carried.{is_done_here, object_of, hand_for, hand_after, IsProper, AsksForSome, DoesWish};

use std::alloc::Global;
use up_num::Memory;
use up_worker::{Heard, Wish};

/// What carries out actors' wishes: objects, the frames of two banks, a clock, and what was brought for the next call.
pub trait Hands {
    ghost use Rattle.up_steps.specs.Handed.{Handed};

    /// What contracts see of it.
    ghost shown: { Self → Handed };

    /// Carries out an actor's wish, and says what the actor is to hear. What was brought for its next call stays in hand until that
    /// call. After want of memory no more is to be asked.
    fn carry_out(&mut self, alloc: Global, who: u32, wish: Wish) -> Result<Heard, Memory>
        requires known { who < length (shown self.old).kept }
        requires done_here { is_done_here wish ≡ true }
        requires object { IfSome (object_of wish) (λ object. object < length (shown self.old).lives) }
        requires proper { IsProper (shown self.old).lives who wish }
        requires hand { (shown self.old).hand ≡ hand_for wish }
        requires some { AsksForSome wish }
        ensures done { DoesWish (shown self.old) (shown self.new) who wish result }
        ensures hand { IfOk result (λ heard. (shown self.new).hand ≡ hand_after wish heard) }
        ensures legal { AllLegal (shown self.new).lives }
        ensures births { births_in (shown self.new).lives ≡ births_in (shown self.old).lives }
        ensures objects { length (shown self.new).lives ≡ length (shown self.old).lives }
        ensures actors { length (shown self.new).kept ≡ length (shown self.old).kept };
}
