ghost use Rattle.std.specs.Prelude.{◌≡◌, ◌+◌, ◌<◌, ◌≤◌, true, false, length, None, IfOk, IfErr, OnOk, OnErr};
ghost use Rattle.up_bank.specs.declared.kind.FrameKind.TheVariants.{Loaned as LoanedKind};
ghost use Rattle.up_model.specs.Size.{size};
ghost use Rattle.up_model.specs.Pins as marks;
ghost use Rattle.up_model.specs.States as states;
ghost use Rattle.up_model.specs.Value as values;
ghost use Rattle.up_model.specs.declared.entry.Call.TheVariants.{Borrow as BorrowCall};
ghost use Rattle.up_model.specs.declared.entry.Reply.TheVariants.{Borrowed as BorrowedReply};
ghost use Rattle.up_model.specs.Reply as replies;
ghost use Rattle.up_object.specs.Parts.{bank_of};
ghost use Rattle.up_object.specs.Change.{AllAre, AllOwn};
ghost use Rattle.up_object.specs.Whole.{after};
ghost use Rattle.up_object.specs.Answered.{RepliesAsDue, FramesBalance};
ghost use Rattle.up_object.specs.OneCall.{DoesCall, brought_of, frames_of, declined_reply};

use core::mem::replace_with;
use std::alloc::Global;
use up_bank::FrameKind;
use up_model::{Brought, Call, Reply};
use up_num::{PageNo, PageState, Refusal};
use up_object::changing::open;
use up_object::{By, Declined, FramesIn, Object, Step, Stepped, decline, lacking};
use up_pages::Frames;

/// Puts a loaned frame under a page that is clean and has no pins. It answers `Borrowed(true)`, or `Borrowed(false)` where the page
/// has a loaned frame already.
///
/// It is refused with `Range` past the object's end, `NotFound` where the page isn't there, `Pinned` or `Unclean`. Where it needs a frame
/// and has none it answers `Refused(NoFrames)` after a scan, or `Needs(1)`.
pub fn borrow(
    object: &mut Object,
    alloc: Global,
    who: u32,
    epoch: u64,
    page: PageNo,
    frames: FramesIn,
) -> Step
    requires own { AllAre (bank_of object.old.banks LoanedKind) (frames_of frames) }
    ensures reply { RepliesAsDue object.old who epoch (BorrowCall page (brought_of frames)) result }
    ensures object { OnOk result (object.new
        ≡ after object.old who epoch (BorrowCall page (brought_of frames))) }
    ensures frames { FramesBalance object.old object.new (frames_of frames) result }
    ensures own { IfOk result (λ s. AllOwn object.old.banks s.back.items) }
    ensures same { OnErr result (object.new ≡ object.old) }
    ensures back { IfErr result (λ failed. failed.1.items ≡ frames_of frames) }
{
    let by = By { who, epoch };
    let brought = frames.brought();
    let given = frames.into_frames(alloc);
    let borrowing = Borrowing {
        alloc,
        by,
        page,
        brought,
    };
    replace_with(object, (borrowing, given), borrow_by)
}

#[derive(Clone, Copy)]
struct Borrowing {
    alloc: Global,
    by: By,
    page: PageNo,
    brought: Brought,
}

impl Borrowing {
    fn call(&self) -> Call
        ensures { result ≡ BorrowCall self.now.page self.now.brought }
    {
        Call::Borrow {
            page: self.page,
            brought: self.brought,
        }
    }

    fn refuse(self, object: Object, given: Frames, why: Declined) -> (Object, Step)
        requires own { AllAre (bank_of object.banks LoanedKind) given.items }
        requires some { replies.counts_frames self.brought ≡ true }
        requires due { replies.reply object.birth object.journal self.by.who self.by.epoch (BorrowCall self.page self.brought) ≡ declined_reply why }
        ensures { DoesCall object result.0 result.1 self.by.who self.by.epoch (BorrowCall self.page self.brought) given.items }
    {
        decline(
            object,
            self.alloc,
            self.by,
            self.call(),
            why,
            FrameKind::Loaned,
            given,
        )
    }
}

fn borrow_by(object: Object, load: (Borrowing, Frames)) -> (Object, Step)
    requires own { AllAre (bank_of object.banks LoanedKind) load.1.items }
    requires some { replies.counts_frames load.0.brought ≡ true }
    requires count { length load.1.items ≡ replies.frames_in load.0.brought }
    ensures { DoesCall object result.0 result.1 load.0.by.who load.0.by.epoch (BorrowCall load.0.page load.0.brought) load.1.items }
{
    let (borrowing, given) = load;
    let page = borrowing.page;
    if object.size() <= page.0 {
        return borrowing.refuse(object, given, Declined::Refused(Refusal::Range));
    }
    if !object.has_page(page) {
        return borrowing.refuse(object, given, Declined::Refused(Refusal::NotFound(page)));
    }
    if object.pins(page) != 0 {
        return borrowing.refuse(object, given, Declined::Refused(Refusal::Pinned(page)));
    }
    if object.is_unclean(page) {
        return borrowing.refuse(object, given, Declined::Refused(Refusal::Unclean(page)));
    }
    if object.is_loaned(page) {
        return keep_loan(object, borrowing, given);
    }
    match lacking(1, borrowing.brought) {
        Some(why) => borrowing.refuse(object, given, why),
        None => lend(object, borrowing, given),
    }
}

/// Leaves a page in the loaned frame that it has.
fn keep_loan(object: Object, borrowing: Borrowing, given: Frames) -> (Object, Step)
    requires own { AllAre (bank_of object.banks LoanedKind) given.items }
    requires some { replies.counts_frames borrowing.brought ≡ true }
    requires within { borrowing.page.0 < size object.birth object.journal }
    requires due { replies.reply object.birth object.journal borrowing.by.who borrowing.by.epoch (BorrowCall borrowing.page borrowing.brought) ≡ BorrowedReply false }
    ensures { DoesCall object result.0 result.1 borrowing.by.who borrowing.by.epoch (BorrowCall borrowing.page borrowing.brought) given.items }
{
    let entry = borrowing.by.entry(borrowing.call(), Reply::Borrowed(false));
    let page = borrowing.page.0;
    object.is_bounded();
    match open(
        object,
        borrowing.alloc,
        entry,
        FrameKind::Loaned,
        given,
        page,
        page + 1,
    ) {
        Ok(mut changing) => {
            changing.keep();
            let (object, back) = changing.close(page, page + 1);
            let reply = Reply::Borrowed(false);
            (object, Ok(Stepped { reply, back }))
        }
        Err((memory, object, given)) => (object, Err((memory, given))),
    }
}

/// Puts a given frame under a clean page in an ordinary one.
fn lend(object: Object, borrowing: Borrowing, given: Frames) -> (Object, Step)
    requires own { AllAre (bank_of object.banks LoanedKind) given.items }
    requires some { replies.counts_frames borrowing.brought ≡ true }
    requires one { 1 ≤ length given.items }
    requires within { borrowing.page.0 < size object.birth object.journal }
    requires there { values.there object.birth object.journal borrowing.page.0 ≡ true }
    requires clean { states.unclean object.birth object.journal borrowing.page.0 ≡ false }
    requires owned { marks.loaned object.birth object.journal borrowing.page.0 ≡ false }
    requires due { replies.reply object.birth object.journal borrowing.by.who borrowing.by.epoch (BorrowCall borrowing.page borrowing.brought) ≡ BorrowedReply true }
    ensures { DoesCall object result.0 result.1 borrowing.by.who borrowing.by.epoch (BorrowCall borrowing.page borrowing.brought) given.items }
{
    let entry = borrowing.by.entry(borrowing.call(), Reply::Borrowed(true));
    let page = borrowing.page.0;
    object.is_legal();
    object.is_bounded();
    match open(
        object,
        borrowing.alloc,
        entry,
        FrameKind::Loaned,
        given,
        page,
        page + 1,
    ) {
        Ok(mut changing) => {
            changing.reframe(PageState::Clean);
            let (object, back) = changing.close(page, page + 1);
            let reply = Reply::Borrowed(true);
            (object, Ok(Stepped { reply, back }))
        }
        Err((memory, object, given)) => (object, Err((memory, given))),
    }
}
