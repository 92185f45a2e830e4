ghost use Rattle.std.specs.Prelude.{◌≡◌, ◌==◌, ◌&&◌, IfOk};
ghost use Rattle.std.specs.List.{list_any};
ghost use Rattle.up_script.specs.Actions.{object_of, has_left, with_leave, bytes_of};
ghost use Rattle.up_script.specs.Reading.{nothing_played};

use crate::script::{Action, Lines};
use std::alloc::Global;
use up_model::Call;
use up_num::{Items, Memory};

/// The greatest number of bytes that all lines together read, write and supply.
const BYTES: u64 = 67_108_864;

/// An actor, and an object that it has left.
#[derive(Clone, Copy, PartialEq, Eq, Debug)]
pub struct LeftObject {
    pub actor: u32,
    pub object: u32,
}

/// The lines of actors so far, how many bytes further lines may read, write and supply, and who has left what.
#[derive(Debug, Drop)]
pub struct Played {
    pub lines: Lines,
    pub room: u64,
    pub left: Items<LeftObject>,
}

impl Played {
    pub fn new(alloc: Global) -> Played
        ensures { result ≡ nothing_played }
    {
        Played {
            lines: Items::new(alloc),
            room: BYTES,
            left: Items::new(alloc),
        }
    }

    /// The actor has left this object.
    pub fn has_left(&self, actor: u32, object: Option<u32>) -> bool
        ensures { result ≡ has_left self.now.left actor object }
    {
        match object {
            None => false,
            Some(object) => is_left(self.left.as_slice(), actor, object),
        }
    }
}

fn is_left(left: &[LeftObject], actor: u32, object: u32) -> bool
    ensures { result ≡ list_any (λ one. (one.actor == actor) && (one.object == object)) left.now }
{
    left.iter()
        .any(|one| one.actor == actor && one.object == object)
}

/// Who has left what, after this action.
pub fn note_leave(
    left: Items<LeftObject>,
    actor: u32,
    action: &Action,
) -> Result<Items<LeftObject>, Memory>
    ensures { IfOk result (λ more. more ≡ with_leave left actor action.now) }
{
    let mut more = left;
    if let Action::Act {
        object,
        call: Call::Leave { .. },
    } = action
    {
        let one = LeftObject {
            actor,
            object: *object,
        };
        if let Err(_) = more.push(one) {
            return Err(Memory {});
        }
    }
    Ok(more)
}

impl Action {
    /// The object that an action is on.
    pub fn object(&self) -> Option<u32>
        ensures { result ≡ object_of self.now }
    {
        match self {
            Action::Read { object, .. }
            | Action::Write { object, .. }
            | Action::Act { object, .. }
            | Action::Sync { object }
            | Action::Turn { object, .. } => Some(*object),
            Action::Go
            | Action::Age
            | Action::Watch
            | Action::Relieve(_)
            | Action::Recall
            | Action::Lend => None,
        }
    }

    /// How many bytes an action reads, writes or supplies.
    pub fn bytes(&self) -> u64
        ensures { result ≡ bytes_of self.now }
    {
        match self {
            Action::Read { len, .. } => u64::from(*len),
            Action::Write { bytes, .. } => bytes.len() as u64,
            Action::Act {
                call: Call::Supply { bytes, .. },
                ..
            } => bytes.len() as u64,
            _ => 0,
        }
    }
}
