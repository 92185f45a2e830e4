ghost use Rattle.std.specs.Prelude.{◌≡◌, ℕ, ◌+◌, ◌<◌, ◌∷◌, [], ◌++◌, length, get_or, Some, true};
ghost use Rattle.up_model.specs.Looks as looks;
ghost use Rattle.up_pages.specs.Pages.{page_at, look_of as look_at};
ghost use Rattle.up_object.specs.Parts.{shown, content, state_shown, mark_at};
ghost use Rattle.up_object.specs.Numbers as numbering;

use crate::marks::{Mark, Marks};
use crate::numbers::Numbers;
use up_bank::{Frame, FrameKind};
use up_num::{PageNo, PageState};
use up_pages::{Frames, Look, PageList};

/// Whether a pin, or a write, gives the page a frame of its own.
pub(crate) fn lacks_own(look: Look) -> bool
    ensures { result ≡ looks.lacks_own_frame (shown look) }
{
    match look {
        Look::Absent => false,
        Look::Zero(_) => true,
        Look::Held(_, FrameKind::Ordinary) => false,
        Look::Held(_, FrameKind::Loaned) => true,
    }
}

/// Whether leave to make it dirty gives the page another frame.
pub(crate) fn has_loan(look: Look) -> bool
    ensures { result ≡ looks.has_loan (shown look) }
{
    match look {
        Look::Held(_, FrameKind::Loaned) => true,
        _ => false,
    }
}

pub(crate) fn is_zeros(look: Look) -> bool
    ensures { result ≡ numbering.is_zeros (shown look) }
{
    match look {
        Look::Zero(_) => true,
        _ => false,
    }
}

/// The mark of a page that is no zero page after an entry, where so many begins have a number before it.
fn bared_by(look: Look, number: u64, mark: Mark) -> Mark
    ensures { result ≡ numbering.bared (shown look) number mark }
{
    let unzeroed = if is_zeros(look) {
        number
    } else {
        mark.unzeroed
    };
    Mark { unzeroed, ..mark }
}

/// The mark of a page that is no zero page after an entry, where these begins have numbers before it.
pub(crate) fn bared(pages: &PageList, marks: &Marks, numbers: &Numbers, page: u32) -> Mark
    ensures { result ≡ numbering.bared (shown (look_at (page_at pages.now page))) (length numbers.now.begins) (mark_at marks.now page) }
{
    bared_by(pages.look(PageNo(page)), numbers.count(), marks.at(page))
}

/// Tells the prover that a frame has a page of bytes.
fn is_whole(frame: &Frame)
    ensures { length frame.now.bytes ≡ 4096 }
{
    frame.bytes();
}

/// The last of some frames.
pub(crate) fn last_of(frames: &mut Frames) -> Frame
    requires { 0 < length frames.old.items }
    ensures items { frames.old.items ≡ frames.new.items ++ result ∷ [] }
    ensures room { frames.new.room ≡ frames.old.room }
    ensures whole { length result.bytes ≡ 4096 }
{
    match frames.pop() {
        Some(frame) => {
            is_whole(&frame);
            frame
        }
        None => unreachable!(),
    }
}

/// Gives a frame the bytes of a page that is there.
pub(crate) fn copy_to(pages: &PageList, page: PageNo, frame: &mut Frame)
    requires whole { length frame.old.bytes ≡ 4096 }
    requires present { looks.is_present (shown (look_at (page_at pages.now page.0))) ≡ true }
    ensures bank { frame.new.bank ≡ frame.old.bank }
    ensures whole { length frame.new.bytes ≡ 4096 }
    ensures bytes { (i : ℕ) → i < 4096 → content (page_at pages.now page.0) i ≡ Some (get_or frame.new.bytes i 0) }
{
    match pages.bytes(page) {
        Some(bytes) => frame.set(0, bytes),
        None => frame.set(0, &[0; 4096]),
    }
}

/// The state of a page that is there.
pub(crate) fn state_in(look: Look) -> PageState
    ensures { result ≡ state_shown (shown look) }
{
    match look {
        Look::Absent => PageState::Clean,
        Look::Zero(state) => state,
        Look::Held(state, _) => state,
    }
}
