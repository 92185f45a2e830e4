//! The definitions as a plain program: each is computed from the entries alone, by looking back over them. `before` are the
//! entries so far, oldest first.
mod answers;
mod modified;
mod numbers;
mod order;
mod packets;
mod proper;
mod ranges;
mod tickets;

ghost use Rattle.std.specs.Prelude.{◌≡◌, reverse, IfOk};
ghost use Rattle.up_model.specs.Reply as replies;

use crate::slow::answers::{
    access, begin, borrow, detach, dirty, done_within, end, evict, fail, leave, packet, pin, query,
    resize, retry, supply, unpin, vacate, zero,
};
use crate::slow::modified::modified;
pub use crate::slow::proper::is_proper;
use std::alloc::Global;
use up_model::{Birth, Call, Entry, Reply};
use up_num::Memory;

/// What a call of this actor answers after the entries so far, found by looking back over all of them. It says so for
/// improper calls too.
pub fn reply_slow(
    alloc: Global,
    birth: &Birth,
    before: &[Entry],
    who: u32,
    epoch: u64,
    call: &Call,
) -> Result<Reply, Memory>
    ensures { IfOk result (λ r. r ≡ replies.reply birth.now (reverse before.now) who epoch call.now) }
{
    match call {
        Call::Read { brought, .. } => access(alloc, birth, before, call, brought),
        Call::Write { brought, .. } => access(alloc, birth, before, call, brought),
        Call::Retry { ticket, brought } => retry(alloc, birth, before, *ticket, brought),
        Call::Supply { range, brought, .. } => supply(alloc, birth, before, call, range, brought),
        Call::Fail { range, .. } => fail(alloc, birth, before, call, range),
        Call::Dirty { range, brought } => dirty(alloc, birth, before, call, range, brought),
        Call::End { range, of } => end(alloc, birth, before, call, range, of),
        Call::Query { range, room } => query(alloc, birth, before, range, *room),
        Call::Evict { limit, max } => evict(alloc, birth, before, epoch, *limit, *max),
        Call::Vacate { brought } => vacate(alloc, birth, before, brought),
        Call::Resize { pages } => resize(alloc, birth, before, call, *pages),
        Call::Zero { range } => zero(alloc, birth, before, call, range),
        Call::Detach => detach(alloc, birth, before, call),
        Call::Packet => packet(alloc, birth, before),
        Call::Leave { role } => leave(alloc, birth, before, call, *role),
        Call::Begin { range, .. } => Ok(begin(birth, before, range)),
        Call::Hint { range, .. } => Ok(done_within(birth, before, range)),
        Call::Stats { .. } => Ok(Reply::Modified(modified(birth, before))),
        Call::Pin { range, brought } => Ok(pin(birth, before, range, brought)),
        Call::Unpin { range } => Ok(unpin(birth, before, range)),
        Call::Borrow { page, brought } => Ok(borrow(birth, before, *page, brought)),
        Call::Tell(_) => Ok(Reply::Noted),
    }
}
