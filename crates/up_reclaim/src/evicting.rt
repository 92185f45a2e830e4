ghost use Rattle.std.specs.Prelude.{◌≡◌, [], IfOk, IfErr, OnOk, OnErr};
ghost use Rattle.up_model.specs.declared.entry.Call.TheVariants.{Evict as EvictCall};
ghost use Rattle.up_model.specs.declared.entry.Reply.TheVariants.{Pages as PagesReply};
ghost use Rattle.up_model.specs.Reply as replies;
ghost use Rattle.up_object.specs.Change.{AllOwn};
ghost use Rattle.up_object.specs.Whole.{after};
ghost use Rattle.up_object.specs.Answered.{RepliesAsDue, FramesBalance};
ghost use Rattle.up_object.specs.OneCall.{DoesCall};

use core::mem::replace_with;
use std::alloc::Global;
use up_model::{Call, Reply};
use up_num::{Memory, PageSeq};
use up_object::evicting::evict as evict_list;
use up_object::{By, Object, Step, Stepped};
use up_pages::Frames;

/// Takes at most `max` pages away, of those that are cold or of age `limit` at least: the first in the order of reclaiming. It answers
/// `Pages` with their numbers, and their frames come back.
pub fn evict(object: &mut Object, alloc: Global, who: u32, epoch: u64, limit: u32, max: u32) -> Step
    ensures reply { RepliesAsDue object.old who epoch (EvictCall limit max) result }
    ensures object { OnOk result (object.new ≡ after object.old who epoch (EvictCall limit max)) }
    ensures frames { FramesBalance object.old object.new [] result }
    ensures own { IfOk result (λ s. AllOwn object.old.banks s.back.items) }
    ensures same { OnErr result (object.new ≡ object.old) }
    ensures back { IfErr result (λ failed. failed.1.items ≡ []) }
{
    let by = By { who, epoch };
    replace_with(
        object,
        Evicting {
            alloc,
            by,
            limit,
            max,
        },
        evict_by,
    )
}

#[derive(Clone, Copy)]
struct Evicting {
    alloc: Global,
    by: By,
    limit: u32,
    max: u32,
}

impl Evicting {
    fn call(&self) -> Call
        ensures { result ≡ EvictCall self.now.limit self.now.max }
    {
        Call::Evict {
            limit: self.limit,
            max: self.max,
        }
    }

    fn fail(self, object: Object, memory: Memory) -> (Object, Step)
        ensures { DoesCall object result.0 result.1 self.by.who self.by.epoch (EvictCall self.limit self.max) [] }
    {
        (object, Err((memory, Frames::new(self.alloc))))
    }
}

fn evict_by(object: Object, evicting: Evicting) -> (Object, Step)
    ensures { DoesCall object result.0 result.1 evicting.by.who evicting.by.epoch (EvictCall evicting.limit evicting.max) [] }
{
    match object.oldest(
        evicting.alloc,
        evicting.by.epoch,
        evicting.limit,
        evicting.max,
    ) {
        Ok(pages) => evict_pages(object, evicting, pages),
        Err(memory) => evicting.fail(object, memory),
    }
}

/// Takes these pages away, which are the first in the order of reclaiming.
fn evict_pages(object: Object, evicting: Evicting, pages: PageSeq) -> (Object, Step)
    requires { replies.reply object.birth object.journal evicting.by.who evicting.by.epoch (EvictCall evicting.limit evicting.max) ≡ PagesReply pages }
    ensures { DoesCall object result.0 result.1 evicting.by.who evicting.by.epoch (EvictCall evicting.limit evicting.max) [] }
{
    let noted = match pages.copy(evicting.alloc) {
        Ok(noted) => noted,
        Err(memory) => return evicting.fail(object, memory),
    };
    let entry = evicting.by.entry(evicting.call(), Reply::Pages(noted));
    object.is_legal();
    match evict_list(object, evicting.alloc, entry, &pages) {
        Ok((object, back)) => {
            let reply = Reply::Pages(pages);
            (object, Ok(Stepped { reply, back }))
        }
        Err((memory, object)) => evicting.fail(object, memory),
    }
}
