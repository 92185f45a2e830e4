ghost use Rattle.std.specs.Prelude.{◌≡◌, ℕ, ◌≤◌, true, false, IfOk};
ghost use Rattle.up_num.specs.Asks.{is_waiting};
ghost use Rattle.up_num.specs.declared.answers.AskKind.{AskKind as AskKindValue};
ghost use Rattle.up_model.specs.Asks.{resolves};
ghost use Rattle.up_model.specs.Tickets.{woken};
ghost use Rattle.up_model.specs.Changes.{Happens};
ghost use Rattle.up_model.specs.declared.entry.Call.{Call as CallValue};
ghost use Rattle.up_size.specs.Sizes.{over, event_over};

use std::alloc::Global;
use up_asks::Event;
use up_num::{AskKind, Memory, Outcome, PageRange, Woken};
use up_object::Object;
use up_object::changing::Changing;

fn event(kind: AskKind, range: PageRange, outcome: Outcome) -> Event
    ensures { result ≡ event_over kind range outcome }
{
    Event {
        kind,
        range,
        outcome,
    }
}

/// The tickets that a call wakes which does the same to all who wait for a page of a range.
pub(crate) fn waking_over(
    object: &Object,
    alloc: Global,
    range: PageRange,
    outcome: Outcome,
) -> Result<Woken, Memory>
    ensures { IfOk result (λ woke. (call : CallValue)
        → ((kind : AskKindValue) (page : ℕ) → resolves object.now.birth object.now.journal call kind page ≡ over range outcome kind page)
        → woke ≡ woken object.now.birth object.now.journal call) }
{
    let read = event(AskKind::Read, range, outcome);
    let dirty = event(AskKind::Dirty, range, outcome);
    object.waking(alloc, &[read, dirty])
}

/// The same becomes of all who wait for a page of a range.
pub(crate) fn resolve_over(changing: &mut Changing, range: PageRange, outcome: Outcome)
    requires first { changing.old.done.asks ≡ false }
    requires fixed { is_waiting outcome ≡ false }
    requires room { 2 ≤ changing.old.room.changes }
    requires happens { Happens changing.old.birth changing.old.entry changing.old.journal (over range outcome) }
    ensures { changing.new ≡ record changing.old { done = record changing.old.done { asks = true }; room = changing.new.room } }
{
    let read = event(AskKind::Read, range, outcome);
    let dirty = event(AskKind::Dirty, range, outcome);
    changing.resolve(&[read, dirty]);
}
