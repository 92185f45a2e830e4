ghost use Rattle.std.specs.Prelude.{◌≡◌, ◌+◌, ◌≤◌, true, IfOk, IfErr, OnOk, OnErr};
ghost use Rattle.up_bank.specs.declared.kind.FrameKind.{FrameKind as FrameKindValue};
ghost use Rattle.up_bank.specs.declared.kind.FrameKind.TheVariants.{Ordinary as OrdinaryKind};
ghost use Rattle.up_object.specs.Change.{opened, of_kind, no_frames};
ghost use Rattle.up_object.specs.Stands.{is_leave, leave_calls};
ghost use Rattle.up_object.specs.Whole.{held};

use crate::changing::Changing;
use crate::object::Object;
use std::alloc::Global;
use up_bank::FrameKind;
use up_model::{Entry, Log};
use up_num::Memory;
use up_pages::Frames;

/// Takes room for one entry where none is reserved.
fn room_to_leave(log: &mut Log, leaves: u32) -> Result<(), Memory>
    ensures entries { log.new.entries ≡ log.old.entries }
    ensures spare { log.old.spare ≤ log.new.spare }
    ensures enough { OnOk result (leaves ≡ 0 → 1 ≤ log.new.spare) }
    ensures late { OnErr result (leaves ≡ 0) }
{
    if leaves != 0 {
        return Ok(());
    }
    log.room(1)
}

/// Begins a call that is a leave, and changes no page. It takes no memory while a reserved entry is left.
pub fn open_leaving(
    object: Object,
    alloc: Global,
    entry: Entry,
) -> Result<Changing, (Memory, Object)>
    requires leaves { is_leave entry.call ≡ true }
    ensures ok { IfOk result (λ change. change ≡ opened object entry OrdinaryKind no_frames 0 0 change.frames change.room) }
    ensures frames { IfOk result (λ change. (kind : FrameKindValue) → of_kind kind change.frames ≡ held object.birth object.journal kind) }
    ensures same { IfErr result (λ failed. failed.1 ≡ object) }
    ensures late { IfErr result (λ failed. object.birth.users + object.birth.pagers ≤ leave_calls object.journal) }
{
    let Object {
        birth,
        banks,
        pages,
        marks,
        queues,
        asks,
        tally,
        numbers,
        newest,
        leaves,
        mut log,
    } = object;
    match room_to_leave(&mut log, leaves) {
        Ok(()) => {
            let given = Frames::new(alloc);
            let back = Frames::new(alloc);
            Ok(Changing {
                birth,
                banks,
                pages,
                marks,
                queues,
                asks,
                tally,
                numbers,
                newest,
                leaves,
                log,
                entry,
                brings: FrameKind::Ordinary,
                given,
                back,
                first: 0,
                mark: 0,
                limit: 0,
                asks_done: false,
                spent_done: false,
                tally_done: false,
                size_done: false,
            })
        }
        Err(memory) => {
            let object = Object {
                birth,
                banks,
                pages,
                marks,
                queues,
                asks,
                tally,
                numbers,
                newest,
                leaves,
                log,
            };
            Err((memory, object))
        }
    }
}
