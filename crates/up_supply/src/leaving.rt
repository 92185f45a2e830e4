//! Leaves.
ghost use Rattle.std.specs.Prelude.{◌≡◌, ◌+◌, ◌-◌, ◌<◌, ◌==◌, [], true, false, IfOk, IfErr, OnOk, OnErr, IsOk};
ghost use Rattle.up_model.specs.declared.entry.Call.TheVariants.{Leave as LeaveCall};
ghost use Rattle.up_model.specs.Roles as roles;
ghost use Rattle.up_object.specs.Change.{AllOwn};
ghost use Rattle.up_object.specs.Stands.{leave_calls};
ghost use Rattle.up_object.specs.Whole.{after};
ghost use Rattle.up_object.specs.Answered.{RepliesAsDue, FramesBalance};
ghost use Rattle.up_object.specs.OneCall.{DoesCall};
ghost use Rattle.up_supply.specs.Calls as calls;

use core::mem::replace_with;
use std::alloc::Global;
use up_model::{Call, Entry, Reply, Role};
use up_num::Refusal;
use up_object::{By, Object, Step, Stepped, open_leaving};
use up_pages::Frames;

/// Leaves the object as a user or as a pager. The last of its role detaches it, which wakes all who wait. It answers `Left`;
/// `Refused(Detached)` where nobody has that role any more. While an entry is left of those that birth reserves, one for each user
/// and pager, it takes no memory.
pub fn leave(object: &mut Object, alloc: Global, who: u32, epoch: u64, role: Role) -> Step
    ensures reply { RepliesAsDue object.old who epoch (LeaveCall role) result }
    ensures object { OnOk result (object.new ≡ after object.old who epoch (LeaveCall role)) }
    ensures frames { FramesBalance object.old object.new [] result }
    ensures own { IfOk result (λ step. AllOwn object.old.banks step.back.items) }
    ensures same { OnErr result (object.new ≡ object.old) }
    ensures back { IfErr result (λ failed. failed.1.items ≡ []) }
    ensures reserved { leave_calls object.old.journal < object.old.birth.users + object.old.birth.pagers
        → IsOk result }
{
    let by = By { who, epoch };
    replace_with(object, Leaving { alloc, by, role }, leave_role)
}

#[derive(Clone, Copy)]
struct Leaving {
    alloc: Global,
    by: By,
    role: Role,
}

impl Leaving {
    fn entry(&self, reply: Reply) -> Entry
        ensures { result ≡ record { who = self.now.by.who; epoch = self.now.by.epoch; call = LeaveCall self.now.role; reply = reply } }
    {
        self.by.entry(Call::Leave { role: self.role }, reply)
    }
}

fn is_user(role: Role) -> bool
    ensures { result ≡ calls.is_user role }
{
    match role {
        Role::User => true,
        Role::Pager => false,
    }
}

/// How many there are in a role.
fn count_in(object: &Object, role: Role) -> u32
    ensures { result ≡ roles.in_role object.now.birth object.now.journal role }
{
    match role {
        Role::User => object.users(),
        Role::Pager => object.pagers(),
    }
}

fn leave_role(object: Object, leaving: Leaving) -> (Object, Step)
    ensures steps { DoesCall object result.0 result.1 leaving.by.who leaving.by.epoch (LeaveCall leaving.role) [] }
    ensures reserved { leave_calls object.journal < object.birth.users + object.birth.pagers → IsOk result.1 }
{
    let count = count_in(&object, leaving.role);
    if count == 0 {
        refuse_leave(object, leaving)
    } else if count == 1 && !object.detached() {
        leave_last(object, leaving)
    } else {
        leave_others(object, leaving)
    }
}

/// Nobody has this role any more.
fn refuse_leave(object: Object, leaving: Leaving) -> (Object, Step)
    requires none { roles.in_role object.birth object.journal leaving.role ≡ 0 }
    ensures steps { DoesCall object result.0 result.1 leaving.by.who leaving.by.epoch (LeaveCall leaving.role) [] }
    ensures reserved { leave_calls object.journal < object.birth.users + object.birth.pagers → IsOk result.1 }
{
    let alloc = leaving.alloc;
    let entry = leaving.entry(Reply::Refused(Refusal::Detached));
    match open_leaving(object, alloc, entry) {
        Ok(changing) => {
            let (object, back) = changing.close(0, 0);
            let reply = Reply::Refused(Refusal::Detached);
            (object, Ok(Stepped { reply, back }))
        }
        Err((memory, object)) => (object, Err((memory, Frames::new(alloc)))),
    }
}

/// The object is detached already, or others of this role stay: nobody is woken.
fn leave_others(object: Object, leaving: Leaving) -> (Object, Step)
    requires some { (roles.in_role object.birth object.journal leaving.role == 0) ≡ false }
    requires stays { roles.detaches object.birth object.journal (LeaveCall leaving.role) ≡ false }
    ensures steps { DoesCall object result.0 result.1 leaving.by.who leaving.by.epoch (LeaveCall leaving.role) [] }
    ensures reserved { leave_calls object.journal < object.birth.users + object.birth.pagers → IsOk result.1 }
{
    let alloc = leaving.alloc;
    let entry = leaving.entry(Reply::Left(0));
    match open_leaving(object, alloc, entry) {
        Ok(mut changing) => {
            changing.resolve(&[]);
            changing.leave(is_user(leaving.role));
            let (object, back) = changing.close(0, 0);
            let reply = Reply::Left(0);
            (object, Ok(Stepped { reply, back }))
        }
        Err((memory, object)) => (object, Err((memory, Frames::new(alloc)))),
    }
}

/// The last of its role leaves, which detaches the object.
fn leave_last(object: Object, leaving: Leaving) -> (Object, Step)
    requires last { roles.in_role object.birth object.journal leaving.role ≡ 1 }
    requires attached { roles.detached object.birth object.journal ≡ false }
    ensures steps { DoesCall object result.0 result.1 leaving.by.who leaving.by.epoch (LeaveCall leaving.role) [] }
    ensures reserved { leave_calls object.journal < object.birth.users + object.birth.pagers → IsOk result.1 }
{
    let alloc = leaving.alloc;
    let woken = object.count_waiting();
    let pages = object.size();
    let entry = leaving.entry(Reply::Left(woken));
    match open_leaving(object, alloc, entry) {
        Ok(mut changing) => {
            changing.detach();
            changing.leave(is_user(leaving.role));
            let (object, back) = changing.close(0, pages);
            let reply = Reply::Left(woken);
            (object, Ok(Stepped { reply, back }))
        }
        Err((memory, object)) => (object, Err((memory, Frames::new(alloc)))),
    }
}
