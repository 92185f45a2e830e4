ghost use Rattle.std.specs.Prelude.{◌≡◌, ℕ, ◌<◌, ◌≤◌, true, false, length, slice_index_or, IfOk, IfErr, OnOk, OnErr};
ghost use Rattle.up_bank.specs.declared.kind.FrameKind.TheVariants.{Ordinary as OrdinaryKind};
ghost use Rattle.up_model.specs.Size.{size};
ghost use Rattle.up_model.specs.Legal.{Legal};
ghost use Rattle.up_model.specs.declared.entry.Call.TheVariants.{Vacate as VacateCall};
ghost use Rattle.up_model.specs.Reply as replies;
ghost use Rattle.up_object.specs.Parts.{bank_of, is_loan};
ghost use Rattle.up_object.specs.Change.{AllAre, AllOwn, next_using};
ghost use Rattle.up_object.specs.Whole.{after};
ghost use Rattle.up_object.specs.Answered.{RepliesAsDue, FramesBalance};
ghost use Rattle.up_object.specs.OneCall.{DoesCall, brought_of, frames_of, declined_reply, further};
ghost use Rattle.up_reclaim.specs.Loans.{fate_at, is_moved, Meets, vacated};
ghost use Rattle.up_reclaim.specs.declared.loans.Fate.TheVariants.{Stays as StaysFate};

use crate::loans::{Fate, count_firm, fates_of, vacated_reply};
use core::mem::replace_with;
use std::alloc::Global;
use up_bank::FrameKind;
use up_model::{Brought, Call, Reply};
use up_num::PageState;
use up_object::changing::{Changing, open};
use up_object::{By, Declined, FramesIn, Object, Step, Stepped, decline, lacking};
use up_pages::Frames;

/// Takes all loaned frames away. Pages that may be evicted go; the others get the given frames. It answers `Vacated` with both, or what
/// it lacks: `Refused(NoFrames)` after a scan, or `Needs` with the number of frames.
pub fn vacate(object: &mut Object, alloc: Global, who: u32, epoch: u64, frames: FramesIn) -> Step
    requires own { AllAre (bank_of object.old.banks OrdinaryKind) (frames_of frames) }
    ensures reply { RepliesAsDue object.old who epoch (VacateCall (brought_of frames)) result }
    ensures object { OnOk result (object.new ≡ after object.old who epoch (VacateCall (brought_of frames))) }
    ensures frames { FramesBalance object.old object.new (frames_of frames) result }
    ensures own { IfOk result (λ s. AllOwn object.old.banks s.back.items) }
    ensures same { OnErr result (object.new ≡ object.old) }
    ensures back { IfErr result (λ failed. failed.1.items ≡ frames_of frames) }
{
    let by = By { who, epoch };
    let brought = frames.brought();
    let given = frames.into_frames(alloc);
    let vacating = Vacating { alloc, by, brought };
    replace_with(object, (vacating, given), vacate_by)
}

#[derive(Clone, Copy)]
struct Vacating {
    alloc: Global,
    by: By,
    brought: Brought,
}

impl Vacating {
    fn call(&self) -> Call
        ensures { result ≡ VacateCall self.now.brought }
    {
        Call::Vacate {
            brought: self.brought,
        }
    }

    fn decline(self, object: Object, given: Frames, why: Declined) -> (Object, Step)
        requires own { AllAre (bank_of object.banks OrdinaryKind) given.items }
        requires some { replies.counts_frames self.brought ≡ true }
        requires due { replies.reply object.birth object.journal self.by.who self.by.epoch (VacateCall self.brought) ≡ declined_reply why }
        ensures { DoesCall object result.0 result.1 self.by.who self.by.epoch (VacateCall self.brought) given.items }
    {
        decline(
            object,
            self.alloc,
            self.by,
            self.call(),
            why,
            FrameKind::Ordinary,
            given,
        )
    }
}

fn vacate_by(object: Object, load: (Vacating, Frames)) -> (Object, Step)
    requires own { AllAre (bank_of object.banks OrdinaryKind) load.1.items }
    requires some { replies.counts_frames load.0.brought ≡ true }
    requires count { length load.1.items ≡ replies.frames_in load.0.brought }
    ensures { DoesCall object result.0 result.1 load.0.by.who load.0.by.epoch (VacateCall load.0.brought) load.1.items }
{
    let (vacating, given) = load;
    let count = count_firm(&object);
    match lacking(count, vacating.brought) {
        Some(why) => vacating.decline(object, given, why),
        None => vacate_all(object, vacating, given),
    }
}

/// Makes the replies and what becomes of each page, and then takes the loaned frames away.
fn vacate_all(object: Object, vacating: Vacating, given: Frames) -> (Object, Step)
    requires own { AllAre (bank_of object.banks OrdinaryKind) given.items }
    requires some { replies.counts_frames vacating.brought ≡ true }
    requires enough { length (replies.pages_where object.birth object.journal (replies.loaned_firm object.birth object.journal)) ≤ length given.items }
    requires due { replies.reply object.birth object.journal vacating.by.who vacating.by.epoch (VacateCall vacating.brought) ≡ vacated object.birth object.journal }
    ensures { DoesCall object result.0 result.1 vacating.by.who vacating.by.epoch (VacateCall vacating.brought) given.items }
{
    let noted = match vacated_reply(&object, vacating.alloc) {
        Ok(noted) => noted,
        Err(memory) => return (object, Err((memory, given))),
    };
    let reply = match vacated_reply(&object, vacating.alloc) {
        Ok(reply) => reply,
        Err(memory) => return (object, Err((memory, given))),
    };
    let fates = match fates_of(&object, vacating.alloc) {
        Ok(fates) => fates,
        Err(memory) => return (object, Err((memory, given))),
    };
    let answer = VacateAnswer {
        noted,
        reply,
        fates,
    };
    vacate_pages(object, vacating, given, answer)
}

/// The reply for the entry, and for the caller, and what becomes of each page.
#[derive(Drop)]
struct VacateAnswer {
    noted: Reply,
    reply: Reply,
    fates: Vec<Fate>,
}

fn vacate_pages(
    object: Object,
    vacating: Vacating,
    given: Frames,
    answer: VacateAnswer,
) -> (Object, Step)
    requires own { AllAre (bank_of object.banks OrdinaryKind) given.items }
    requires some { replies.counts_frames vacating.brought ≡ true }
    requires enough { length (replies.pages_where object.birth object.journal (replies.loaned_firm object.birth object.journal)) ≤ length given.items }
    requires due { replies.reply object.birth object.journal vacating.by.who vacating.by.epoch (VacateCall vacating.brought) ≡ vacated object.birth object.journal }
    requires noted { answer.noted ≡ vacated object.birth object.journal }
    requires same { answer.reply ≡ vacated object.birth object.journal }
    requires sized { length answer.fates.items ≡ size object.birth object.journal }
    requires fates { (p : ℕ) → p < size object.birth object.journal → slice_index_or answer.fates.items p StaysFate ≡ fate_at object.birth object.journal p }
    ensures { DoesCall object result.0 result.1 vacating.by.who vacating.by.epoch (VacateCall vacating.brought) given.items }
{
    let VacateAnswer {
        noted,
        reply,
        fates,
    } = answer;
    let entry = vacating.by.entry(vacating.call(), noted);
    let end = object.size();
    match open(
        object,
        vacating.alloc,
        entry,
        FrameKind::Ordinary,
        given,
        0,
        end,
    ) {
        Ok(mut changing) => {
            vacate_each(&mut changing, fates.as_slice(), vacating.brought);
            let (object, back) = changing.close(0, end);
            (object, Ok(Stepped { reply, back }))
        }
        Err((memory, object, given)) => (object, Err((memory, given))),
    }
}

fn vacate_each(changing: &mut Changing, fates: &[Fate], brought: Brought)
    requires legal { Legal changing.old.birth changing.old.journal }
    requires call { changing.old.entry.call ≡ VacateCall brought }
    requires reply { changing.old.entry.reply ≡ vacated changing.old.birth changing.old.journal }
    requires ordinary { is_loan changing.old.brings ≡ false }
    requires sized { length fates.now ≡ size changing.old.birth changing.old.journal }
    requires fates { (p : ℕ) → p < size changing.old.birth changing.old.journal → slice_index_or fates.now p StaysFate ≡ fate_at changing.old.birth changing.old.journal p }
    requires enough { length (replies.pages_where changing.old.birth changing.old.journal (replies.loaned_firm changing.old.birth changing.old.journal)) ≤ changing.old.given }
    requires first { changing.old.done.mark ≡ 0 }
    requires limit { changing.old.done.limit ≡ length fates.now }
    ensures { changing.new ≡ record (further (length fates.now) changing.old) { given = changing.new.given } }
{
    for place in 0..fates.len() {
        vacate_one(changing, fates[place]);
    }
}

/// Does with the page at the mark what becomes of it.
fn vacate_one(changing: &mut Changing, fate: Fate)
    requires left { changing.old.done.mark < changing.old.done.limit }
    requires frame { is_moved fate ≡ true → 0 < changing.old.given }
    requires meets { Meets fate changing.old.birth changing.old.entry changing.old.journal changing.old.done.mark (is_loan changing.old.brings) }
    ensures { changing.new ≡ next_using (is_moved fate) changing.old }
{
    match fate {
        Fate::Stays => changing.keep(),
        Fate::Moves => changing.reframe(PageState::Clean),
        Fate::Goes => changing.drop_page(),
    }
}
