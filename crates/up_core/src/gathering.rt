ghost use Rattle.std.specs.Prelude.{◌≡◌, ◌+◌, ◌≤◌, ◌++◌, length, reverse};
ghost use Rattle.up_bank.specs.declared.kind.FrameKind.{FrameKind as FrameKindValue};
ghost use Rattle.up_pages.specs.Frames.{count_kind};
ghost use Rattle.up_object.specs.Parts.{BankPair};
ghost use Rattle.up_object.specs.Change.{AllOwn};
ghost use Rattle.up_core.specs.Requests.{given_back, AllBackOwn};
ghost use Rattle.up_core.specs.Running.{all_back};

use up_object::Stepped;
use up_pages::Frames;

/// Moves all frames of a list into another one that has room for them.
pub fn pour(from: Frames, into: &mut Frames)
    requires room { length into.old.items + length from.items ≤ into.old.room }
    ensures items { into.new.items ≡ into.old.items ++ reverse from.items }
    ensures room { into.new.room ≡ into.old.room }
{
    let mut rest = from;
    while let Some(frame) = rest.pop() {
        into.put(frame);
    }
    rest.end();
}

/// Moves all frames that came back into a list that has room for them.
pub fn gather(replies: Vec<Stepped>, into: &mut Frames)
    requires room { length into.old.items + all_back replies.items ≤ into.old.room }
    ensures kinds { (kind : FrameKindValue)
        → count_kind kind into.new.items ≡ count_kind kind into.old.items + given_back kind replies.items }
    ensures own { (banks : BankPair)
        → AllOwn banks into.old.items → AllBackOwn banks replies.items → AllOwn banks into.new.items }
{
    let mut rest = replies;
    while let Some(stepped) = rest.pop() {
        let Stepped { reply: _, back } = stepped;
        pour(back, into);
    }
    rest.destroy_empty();
}
