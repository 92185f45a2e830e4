ghost use Rattle.std.specs.Prelude.{◌≡◌, true, false, slice_get, IfOk};
ghost use Rattle.std.specs.Option.{option_map};
ghost use Rattle.up_worker.specs.Calls.{fits_limits, calls_of, bringing_aim, look_of, is_access};

use crate::line_calls::{leave_at, line_call_at, line_look_at, number_at};
use std::alloc::Global;
use up_model::{Brought, Call};
use up_num::Memory;
use up_script::{Action, Kind, Numbers};

/// A call that is to be made on an object.
#[derive(Debug, Drop)]
pub struct Aim {
    pub object: u32,
    pub call: Call,
}

/// What an actor does.
#[derive(Debug, Drop)]
pub enum Doing {
    Idle,
    /// A line of its script.
    OneLine(Action),
    /// It leaves these objects, one after the other.
    Leaving(Numbers),
}

/// What is to be known of a call before it is made: its object, how many frames are gathered first, and whether its frame is a
/// loaned one.
#[derive(Clone, Copy, PartialEq, Eq, Debug)]
pub struct CallLook {
    pub object: u32,
    pub before: u32,
    pub borrows: bool,
}

// The call at this place of those that are made, with what is brought to it.
pub(crate) fn call_at(
    alloc: Global,
    kind: Kind,
    objects: &Numbers,
    doing: &Doing,
    place: u64,
    brought: Brought,
) -> Result<Option<Aim>, Memory>
    requires { fits_limits doing.now ≡ true }
    ensures { IfOk result (λ found. found ≡ option_map (bringing_aim brought) (slice_get (calls_of kind objects.now doing.now) place)) }
{
    match doing {
        Doing::Idle => Ok(None),
        Doing::OneLine(action) => line_call_at(alloc, objects, action, place, brought),
        Doing::Leaving(left) => Ok(leave_at(kind, left, place)),
    }
}

// What is to be known of it.
pub(crate) fn look_at(objects: &Numbers, doing: &Doing, place: u64, kind: Kind) -> Option<CallLook>
    requires { fits_limits doing.now ≡ true }
    ensures { result ≡ option_map look_of (slice_get (calls_of kind objects.now doing.now) place) }
{
    match doing {
        Doing::Idle => None,
        Doing::OneLine(action) => line_look_at(objects, action, place),
        Doing::Leaving(left) => match number_at(left, place) {
            Some(object) => Some(plain_look(object)),
            None => None,
        },
    }
}

// A call that gathers nothing first.
pub(crate) fn plain_look(object: u32) -> CallLook
    ensures { result ≡ record { object = object; before = 0; borrows = false } }
{
    CallLook {
        object,
        before: 0,
        borrows: false,
    }
}

pub(crate) fn is_access(doing: &Doing) -> bool
    ensures { result ≡ is_access doing.now }
{
    match doing {
        Doing::OneLine(Action::Read { .. } | Action::Write { .. }) => true,
        _ => false,
    }
}
