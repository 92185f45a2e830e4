ghost use Rattle.std.specs.Prelude.{◌≡◌, ◌≤◌, []};
ghost use Rattle.up_model.specs.Size as sizes;
ghost use Rattle.up_model.specs.Tickets.{woken};
ghost use Rattle.up_model.specs.Reply as replies;
ghost use Rattle.up_model.specs.declared.entry.Call.TheVariants.{Resize as ResizeCall};
ghost use Rattle.up_model.specs.declared.entry.Reply.TheVariants.{Woke};
ghost use Rattle.up_object.specs.OneCall.{DoesCall};

use crate::blanking::blank_all;
use crate::resizing::Resizing;
use up_model::Reply;
use up_num::{Memory, Woken};
use up_object::{Object, Step, Stepped, open_growing};
use up_pages::Frames;

/// Brings pages.
pub(crate) fn grow(object: Object, resizing: Resizing, size: u32) -> (Object, Step)
    requires size { size ≡ sizes.size object.birth object.journal }
    requires more { size ≤ resizing.pages }
    requires due { replies.reply object.birth object.journal resizing.by.who resizing.by.epoch (ResizeCall resizing.pages) ≡ Woke (woken object.birth object.journal (ResizeCall resizing.pages)) }
    ensures { DoesCall object result.0 result.1 resizing.by.who resizing.by.epoch (ResizeCall resizing.pages) [] }
{
    let alloc = resizing.alloc;
    let Ok(woke) = object.waking(alloc, &[]) else {
        return (object, Err((Memory {}, Frames::new(alloc))));
    };
    let Ok(noted) = woke.copy(alloc) else {
        return (object, Err((Memory {}, Frames::new(alloc))));
    };
    grow_pages(object, resizing, size, woke, noted)
}

/// Brings pages, where these tickets wake.
fn grow_pages(
    object: Object,
    resizing: Resizing,
    size: u32,
    woke: Woken,
    noted: Woken,
) -> (Object, Step)
    requires size { size ≡ sizes.size object.birth object.journal }
    requires more { size ≤ resizing.pages }
    requires due { replies.reply object.birth object.journal resizing.by.who resizing.by.epoch (ResizeCall resizing.pages) ≡ Woke woke }
    requires notes { noted ≡ woke }
    ensures { DoesCall object result.0 result.1 resizing.by.who resizing.by.epoch (ResizeCall resizing.pages) [] }
{
    let alloc = resizing.alloc;
    let pages = resizing.pages;
    let changed = pages != size || object.changed();
    let entry = resizing.by.entry(resizing.call(), Reply::Woke(noted));
    match open_growing(object, alloc, entry, pages) {
        Ok(mut changing) => {
            blank_all(&mut changing, size, pages);
            changing.resolve(&[]);
            changing.set_changed(changed);
            let (object, back) = changing.close(size, pages);
            let reply = Reply::Woke(woke);
            (object, Ok(Stepped { reply, back }))
        }
        Err((memory, object)) => (object, Err((memory, Frames::new(alloc)))),
    }
}
