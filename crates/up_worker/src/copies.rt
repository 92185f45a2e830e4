ghost use Rattle.std.specs.Prelude.{◌≡◌, IfOk};

use std::alloc::Global;
use up_num::Memory;
use up_script::Action;

// A copy of a line's action.
pub(crate) fn copy_action(alloc: Global, action: &Action) -> Result<Action, Memory>
    ensures { IfOk result (λ made. made ≡ action.now) }
{
    match action {
        Action::Read { object, off, len } => Ok(Action::Read {
            object: *object,
            off: *off,
            len: *len,
        }),
        Action::Write { object, off, bytes } => Ok(Action::Write {
            object: *object,
            off: *off,
            bytes: bytes.copy(alloc)?,
        }),
        Action::Act { object, call } => Ok(Action::Act {
            object: *object,
            call: call.copy(alloc)?,
        }),
        Action::Relieve(frames) => Ok(Action::Relieve(*frames)),
        Action::Age => Ok(Action::Age),
        Action::Watch => Ok(Action::Watch),
        Action::Recall => Ok(Action::Recall),
        Action::Lend => Ok(Action::Lend),
        Action::Sync { object } => Ok(Action::Sync { object: *object }),
        Action::Turn { object, steps } => Ok(Action::Turn {
            object: *object,
            steps: *steps,
        }),
        Action::Go => Ok(Action::Go),
    }
}
