ghost use Rattle.std.specs.Prelude.{◌≡◌, ◌<◌, [], None};
ghost use Rattle.up_model.specs.Size as sizes;
ghost use Rattle.up_model.specs.Tickets.{woken};
ghost use Rattle.up_model.specs.Pages.{first_page};
ghost use Rattle.up_model.specs.Reply as replies;
ghost use Rattle.up_model.specs.declared.entry.Call.TheVariants.{Resize as ResizeCall};
ghost use Rattle.up_model.specs.declared.entry.Reply.TheVariants.{Woke};
ghost use Rattle.up_object.specs.OneCall.{DoesCall};
ghost use Rattle.up_size.specs.Sizes.{pinned_past};

use crate::resizing::{Resizing, range_between};
use crate::waking::{resolve_over, waking_over};
use up_bank::FrameKind;
use up_model::Reply;
use up_num::{Memory, Outcome, Woken};
use up_object::changing::open_asking;
use up_object::{Object, Step, Stepped};
use up_pages::Frames;

/// Cuts pages off.
pub(crate) fn cut(object: Object, resizing: Resizing, size: u32) -> (Object, Step)
    requires size { size ≡ sizes.size object.birth object.journal }
    requires less { resizing.pages < size }
    requires unpinned { first_page (pinned_past object.journal resizing.pages) 0 (sizes.size object.birth object.journal) ≡ None }
    requires due { replies.reply object.birth object.journal resizing.by.who resizing.by.epoch (ResizeCall resizing.pages) ≡ Woke (woken object.birth object.journal (ResizeCall resizing.pages)) }
    ensures { DoesCall object result.0 result.1 resizing.by.who resizing.by.epoch (ResizeCall resizing.pages) [] }
{
    let alloc = resizing.alloc;
    let range = range_between(resizing.pages, size);
    let Ok(woke) = waking_over(&object, alloc, range, Outcome::Shrunk) else {
        return (object, Err((Memory {}, Frames::new(alloc))));
    };
    let Ok(noted) = woke.copy(alloc) else {
        return (object, Err((Memory {}, Frames::new(alloc))));
    };
    cut_pages(object, resizing, size, woke, noted)
}

/// Cuts pages off, where these tickets wake.
fn cut_pages(
    object: Object,
    resizing: Resizing,
    size: u32,
    woke: Woken,
    noted: Woken,
) -> (Object, Step)
    requires size { size ≡ sizes.size object.birth object.journal }
    requires less { resizing.pages < size }
    requires unpinned { first_page (pinned_past object.journal resizing.pages) 0 (sizes.size object.birth object.journal) ≡ None }
    requires due { replies.reply object.birth object.journal resizing.by.who resizing.by.epoch (ResizeCall resizing.pages) ≡ Woke woke }
    requires notes { noted ≡ woke }
    ensures { DoesCall object result.0 result.1 resizing.by.who resizing.by.epoch (ResizeCall resizing.pages) [] }
{
    let alloc = resizing.alloc;
    let pages = resizing.pages;
    let none = Frames::new(alloc);
    let range = range_between(pages, size);
    let entry = resizing.by.entry(resizing.call(), Reply::Woke(noted));
    match open_asking(
        object,
        alloc,
        entry,
        FrameKind::Ordinary,
        none,
        pages,
        size,
        0,
        2,
    ) {
        Ok(mut changing) => {
            resolve_over(&mut changing, range, Outcome::Shrunk);
            changing.set_changed(true);
            let (object, back) = changing.close_cut(alloc);
            let reply = Reply::Woke(woke);
            (object, Ok(Stepped { reply, back }))
        }
        Err((memory, object, given)) => (object, Err((memory, given))),
    }
}
