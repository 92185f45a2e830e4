ghost use Rattle.std.specs.Prelude.{◌≡◌, ℕ, ◌<◌, ◌≤◌};
ghost use Rattle.up_model.specs.Changes.{Blanks};
ghost use Rattle.up_object.specs.Change.{at_mark};

use up_object::changing::Changing;

/// Makes the pages of a call zeros, from the mark on up to its limit. Their frames come back.
pub(crate) fn blank_all(changing: &mut Changing, first: u32, limit: u32)
    requires at { changing.old.done.mark ≡ first }
    requires ends { changing.old.done.limit ≡ limit }
    requires order { first ≤ limit }
    requires blanks { (p : ℕ) → first ≤ p → p < limit → Blanks changing.old.birth changing.old.entry changing.old.journal p }
    ensures { changing.new ≡ at_mark limit changing.old }
{
    for _place in first..limit {
        changing.blank();
    }
}
