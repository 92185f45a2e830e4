ghost use Rattle.std.specs.Prelude.{◌≡◌, ◌+◌, ◌^◌, ◌≤◌, true, cond, slice_get, IfOk};
ghost use Rattle.up_worker.specs.Calls.{fits_limits, calls_of};
ghost use Rattle.up_worker.specs.Wishes.{act_on, makes, last_wish, last_of, begins_call, unsettled, after_reply, wish_after, settles, ticket_after};
ghost use Rattle.up_worker.specs.Placing.{place_after};

use crate::course::{Aim, Doing, call_at, is_access, look_at};
use crate::wish::{Heard, Wish, is_refused, settles};
use std::alloc::Global;
use up_model::{Brought, Call, Reply};
use up_num::Memory;
use up_script::{Action, Kind, Numbers};

// How many calls are settled, and the ticket under which the next one waits.
#[derive(Clone, Copy, PartialEq, Eq, Debug)]
pub struct Place {
    pub settled: u64,
    pub ticket: Option<u64>,
}

// The place after what was heard.
pub(crate) fn place_after(at: Place, heard: &Heard) -> Place
    requires { at.settled ≤ 2 ^ 34 }
    ensures { result ≡ place_after at heard.now }
{
    match heard {
        Heard::Replied(reply) => place_after_reply(at, reply),
        Heard::Site(_) => Place {
            settled: at.settled + 1,
            ticket: None,
        },
        _ => at,
    }
}

fn place_after_reply(at: Place, reply: &Reply) -> Place
    requires { at.settled ≤ 2 ^ 34 }
    ensures settled { result.settled ≡ cond (settles reply.now) (at.settled + 1) at.settled }
    ensures ticket { result.ticket ≡ ticket_after reply.now at.ticket }
{
    match reply {
        Reply::Blocked(ticket) => Place {
            settled: at.settled,
            ticket: Some(*ticket),
        },
        Reply::Waiting | Reply::Needs(_) => at,
        _ => Place {
            settled: at.settled + 1,
            ticket: None,
        },
    }
}

// Makes a call: a resize goes through the object's site.
fn act_on(aim: Aim) -> Wish
    ensures { result ≡ act_on aim.object aim.call }
{
    let Aim { object, call } = aim;
    match call {
        Call::Resize { pages } => Wish::Resize { object, pages },
        other => Wish::Act {
            object,
            call: other,
        },
    }
}

// The wish behind the last call.
fn last_wish(doing: &Doing) -> Wish
    ensures { result ≡ last_wish doing.now }
{
    match doing {
        Doing::OneLine(action) => last_of(action),
        _ => Wish::LineEnd,
    }
}

fn last_of(action: &Action) -> Wish
    ensures { result ≡ last_of action.now }
{
    match action {
        Action::Age => Wish::Age,
        Action::Watch => Wish::Watch,
        Action::Relieve(frames) => Wish::Relieve(*frames),
        Action::Recall => Wish::Keep,
        Action::Lend => Wish::Give,
        _ => Wish::LineEnd,
    }
}

// The wish that begins the call at this place.
pub(crate) fn begins(
    alloc: Global,
    kind: Kind,
    objects: &Numbers,
    doing: &Doing,
    place: u64,
) -> Result<Wish, Memory>
    requires { fits_limits doing.now ≡ true }
    ensures { IfOk result (λ wish. wish ≡ begins_call doing.now (slice_get (calls_of kind objects.now doing.now) place)) }
{
    if let Some(look) = look_at(objects, doing, place, kind) {
        if look.before > 0 {
            return Ok(Wish::Gather(look.before));
        }
    }
    match call_at(alloc, kind, objects, doing, place, Brought::Nothing)? {
        Some(aim) => Ok(act_on(aim)),
        None => Ok(last_wish(doing)),
    }
}

// The wish that makes the call at this place with what was brought, or the retry of its ticket.
fn makes(
    alloc: Global,
    kind: Kind,
    objects: &Numbers,
    doing: &Doing,
    at: Place,
    brought: Brought,
) -> Result<Wish, Memory>
    requires { fits_limits doing.now ≡ true }
    ensures { IfOk result (λ wish. wish ≡ makes (slice_get (calls_of kind objects.now doing.now) at.settled) at.ticket brought) }
{
    if let Some(ticket) = at.ticket {
        return Ok(match look_at(objects, doing, at.settled, kind) {
            Some(look) => Wish::Act {
                object: look.object,
                call: Call::Retry { ticket, brought },
            },
            None => Wish::LineEnd,
        });
    }
    match call_at(alloc, kind, objects, doing, at.settled, brought)? {
        Some(aim) => Ok(act_on(aim)),
        None => Ok(Wish::LineEnd),
    }
}

// The wish after a reply that doesn't settle the call at this place.
fn unsettled(objects: &Numbers, doing: &Doing, place: u64, kind: Kind, reply: &Reply) -> Wish
    requires { fits_limits doing.now ≡ true }
    ensures { result ≡ unsettled (slice_get (calls_of kind objects.now doing.now) place) reply.now }
{
    let Some(look) = look_at(objects, doing, place, kind) else {
        return Wish::LineEnd;
    };
    match reply {
        Reply::Needs(count) => {
            if look.borrows {
                Wish::Loan
            } else {
                Wish::Gather(*count)
            }
        }
        _ => Wish::Park {
            object: look.object,
        },
    }
}

// The wish after a reply.
fn after_reply(
    alloc: Global,
    kind: Kind,
    objects: &Numbers,
    doing: &Doing,
    place: u64,
    reply: &Reply,
) -> Result<Wish, Memory>
    requires { fits_limits doing.now ≡ true }
    ensures { IfOk result (λ wish. wish ≡ after_reply doing.now (slice_get (calls_of kind objects.now doing.now) place) reply.now) }
{
    if !settles(reply) {
        return Ok(unsettled(objects, doing, place, kind, reply));
    }
    if is_access(doing) && is_refused(reply) {
        return Ok(Wish::LineEnd);
    }
    begins(alloc, kind, objects, doing, place)
}

// The wish after what was heard, at the place that this leads to.
pub(crate) fn wish_after(
    alloc: Global,
    kind: Kind,
    objects: &Numbers,
    doing: &Doing,
    at: Place,
    heard: &Heard,
) -> Result<Wish, Memory>
    requires { fits_limits doing.now ≡ true }
    ensures { IfOk result (λ wish. wish ≡ wish_after doing.now (slice_get (calls_of kind objects.now doing.now) at.settled) at.ticket heard.now) }
{
    match heard {
        Heard::Replied(reply) => after_reply(alloc, kind, objects, doing, at.settled, reply),
        Heard::Site(_) => begins(alloc, kind, objects, doing, at.settled),
        Heard::Brought(brought) => makes(alloc, kind, objects, doing, at, *brought),
        Heard::Done => {
            if at.ticket.is_some() {
                makes(alloc, kind, objects, doing, at, Brought::Nothing)
            } else {
                Ok(Wish::LineEnd)
            }
        }
    }
}
