ghost use Rattle.std.specs.Prelude.{◌≡◌, ◌&&◌, reverse};
ghost use Rattle.up_model.specs.Attempts as attempts;
ghost use Rattle.up_model.specs.Roles as roles;

use crate::sizes::accepts;
use up_model::{Birth, Call, Entry, Reply, Role};

fn user_left(entry: &Entry) -> bool
    ensures { result ≡ (roles.leaves_user entry.now.call && roles.is_left entry.now.reply) }
{
    match &entry.call {
        Call::Leave { role: Role::User } => matches!(entry.reply, Reply::Left(_)),
        _ => false,
    }
}

fn pager_left(entry: &Entry) -> bool
    ensures { result ≡ (roles.leaves_pager entry.now.call && roles.is_left entry.now.reply) }
{
    match &entry.call {
        Call::Leave { role: Role::Pager } => matches!(entry.reply, Reply::Left(_)),
        _ => false,
    }
}

fn users(birth: &Birth, before: &[Entry]) -> u64
    ensures { result ≡ roles.users birth.now (reverse before.now) }
{
    let mut count = u64::from(birth.users);
    for place in 0..before.len() {
        if user_left(&before[place]) {
            count = count.saturating_sub(1);
        }
    }
    count
}

fn pagers(birth: &Birth, before: &[Entry]) -> u64
    ensures { result ≡ roles.pagers birth.now (reverse before.now) }
{
    let mut count = u64::from(birth.pagers);
    for place in 0..before.len() {
        if pager_left(&before[place]) {
            count = count.saturating_sub(1);
        }
    }
    count
}

/// How many there are in the role.
pub fn in_role(birth: &Birth, before: &[Entry], role: Role) -> u64
    ensures { result ≡ roles.in_role birth.now (reverse before.now) role }
{
    match role {
        Role::User => users(birth, before),
        Role::Pager => pagers(birth, before),
    }
}

fn is_detach(entry: &Entry) -> bool
    ensures { result ≡ (roles.is_detach entry.now.call && attempts.accepts entry.now.reply) }
{
    matches!(entry.call, Call::Detach) && accepts(&entry.reply)
}

fn was_detached(before: &[Entry]) -> bool
    ensures { result ≡ roles.was_detached (reverse before.now) }
{
    let mut found = false;
    for place in 0..before.len() {
        found = is_detach(&before[place]) || found;
    }
    found
}

/// Whether the object is cut off.
pub fn detached(birth: &Birth, before: &[Entry]) -> bool
    ensures { result ≡ roles.detached birth.now (reverse before.now) }
{
    was_detached(before) || (users(birth, before) == 0 || pagers(birth, before) == 0)
}

/// Whether the call, if it is accepted, cuts the object off.
pub(crate) fn detaches(birth: &Birth, before: &[Entry], call: &Call) -> bool
    ensures { result ≡ roles.detaches birth.now (reverse before.now) call.now }
{
    match call {
        Call::Detach => !detached(birth, before),
        Call::Leave { role } => !detached(birth, before) && in_role(birth, before, *role) == 1,
        _ => false,
    }
}
