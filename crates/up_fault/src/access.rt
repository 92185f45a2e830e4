//! What an access comes to: it is refused, waits, needs a frame, or is done.
ghost use Rattle.std.specs.Prelude.{◌≡◌, ◌+◌, ◌*◌, ◌/◌, ◌%◌, ◌^◌, ◌<◌, nat_le};
ghost use Rattle.up_model.specs.Attempts.{page_of};
ghost use Rattle.up_model.specs.States as states;
ghost use Rattle.up_model.specs.Size as sizes;
ghost use Rattle.up_object.specs.Parts.{shown};
ghost use Rattle.up_fault.specs.Accesses.{dirty_look};

use up_num::{AskKind, PageNo, PageState};
use up_object::{Declined, Object};
use up_pages::Look;

/// A read or a write of bytes in one page: where they start, how many they are, and the page in which the whole access ends.
#[derive(Clone, Copy, Debug)]
pub(crate) struct Attempt {
    pub(crate) off: u64,
    pub(crate) len: u32,
    pub(crate) last: PageNo,
    pub(crate) write: bool,
}

/// What an access comes to.
#[derive(Clone, Copy)]
pub(crate) enum Decision {
    /// It is refused, or needs a frame.
    Decline(Declined),
    /// It waits, and asks with this kind.
    Park(AskKind),
    Done,
}

/// The page of an offset within the object.
pub(crate) fn page_in(object: &Object, off: u64) -> u32
    requires { page_of off < sizes.size object.now.birth object.now.journal }
    ensures value { result ≡ page_of off }
    ensures small { result + 1 < 2 ^ 32 }
{
    object.is_bounded();
    (off / 4096) as u32
}

/// The place of an offset in its page.
pub(crate) fn place_in(off: u64) -> u32
    ensures { result ≡ off % 4096 }
{
    (off % 4096) as u32
}

/// The bytes lie within the object.
pub(crate) fn fits(object: &Object, attempt: &Attempt) -> bool
    ensures { result ≡ nat_le (attempt.now.off + attempt.now.len) (4096 * sizes.size object.now.birth object.now.journal) }
{
    let pages = u64::from(object.size());
    match attempt.off.checked_add(u64::from(attempt.len)) {
        Some(end) => end <= 4096 * pages,
        None => false,
    }
}

fn is_dirty_look(look: Look) -> bool
    ensures { result ≡ dirty_look (shown look) }
{
    match look {
        Look::Zero(PageState::Dirty) => true,
        Look::Held(PageState::Dirty, _) => true,
        _ => false,
    }
}

/// The page is there and dirty.
#[tactic(auto, using(crate::proofs::PageLooks::dirty_is))]
pub(crate) fn is_dirty(object: &Object, page: PageNo) -> bool
    ensures { result ≡ states.dirty object.now.birth object.now.journal page.0 }
{
    is_dirty_look(object.look(page))
}
