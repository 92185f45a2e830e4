ghost use Rattle.std.specs.Prelude.{◌≡◌, ◌+◌, ◌≤◌, ◌<◌, length};
ghost use Rattle.up_bank.specs.declared.kind.FrameKind.{FrameKind as FrameKindValue};
ghost use Rattle.up_pages.specs.Frames.{count_kind};
ghost use Rattle.up_object.specs.Parts.{BankPair};
ghost use Rattle.up_object.specs.Change.{AllOwn};
ghost use Rattle.up_object.specs.Stands.{leaves_after};

use up_model::Call;
use up_pages::Frames;

/// How many entries stay reserved for leaves after a call.
pub(crate) fn leaves_left(call: &Call, leaves: u32) -> u32
    ensures { result ≡ leaves_after call.now leaves }
{
    match call {
        Call::Leave { role: _ } => leaves.saturating_sub(1),
        _ => leaves,
    }
}

/// Puts all frames of one list behind those of another, which has room for them.
pub(crate) fn hand_over(mut given: Frames, back: &mut Frames)
    requires room { length back.old.items + length given.items ≤ back.old.room }
    ensures kinds { (kind : FrameKindValue) → count_kind kind back.new.items ≡ count_kind kind given.items + count_kind kind back.old.items }
    ensures own { (banks : BankPair) → AllOwn banks given.items → AllOwn banks back.old.items → AllOwn banks back.new.items }
{
    for _place in 0..given.len() {
        move_one(&mut given, back);
    }
    given.end();
}

/// Moves the last frame of one list behind those of another.
fn move_one(given: &mut Frames, back: &mut Frames)
    requires some { 0 < length given.old.items }
    requires room { length back.old.items < back.old.room }
    ensures given { length given.new.items + 1 ≡ length given.old.items }
    ensures back { length back.new.items ≡ length back.old.items + 1 }
    ensures room { back.new.room ≡ back.old.room }
    ensures kinds { (kind : FrameKindValue) → count_kind kind given.new.items + count_kind kind back.new.items ≡ count_kind kind given.old.items + count_kind kind back.old.items }
    ensures own { (banks : BankPair) → AllOwn banks given.old.items → AllOwn banks back.old.items → AllOwn banks given.new.items × AllOwn banks back.new.items }
{
    if let Some(frame) = given.pop() {
        back.put(frame);
    }
}
