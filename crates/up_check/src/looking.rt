//! Judges a journal by looking back: each entry by the definitions as a plain program.
ghost use Rattle.std.specs.Prelude.{reverse, IfOk};
ghost use Rattle.up_check.specs.Judging.{IsFound, IsJudged};

use crate::judging::{Fault, Judged};
use std::alloc::Global;
use up_journal::{is_proper, reply_slow};
use up_model::{Birth, Entry};
use up_num::Memory;
use up_text::Named;

/// The first entry at fault in a journal.
pub(crate) fn look_back(alloc: Global, journal: &Named) -> Result<Option<Fault>, Memory>
    ensures { IfOk result (IsFound journal.now) }
{
    let entries = journal.entries.as_slice();
    for place in 0..entries.len() {
        match judge(alloc, &journal.birth, &entries[..place], &entries[place])? {
            Judged::Right => {}
            Judged::Fault(expected) => {
                return Ok(Some(Fault {
                    entry: place as u64,
                    expected,
                }));
            }
        }
    }
    Ok(None)
}

fn judge(alloc: Global, birth: &Birth, before: &[Entry], entry: &Entry) -> Result<Judged, Memory>
    ensures { IfOk result (IsJudged birth.now (reverse before.now) entry.now) }
{
    if !is_proper(birth, before, entry.who, &entry.call) {
        return Ok(Judged::Fault(None));
    }
    let expected = reply_slow(alloc, birth, before, entry.who, entry.epoch, &entry.call)?;
    if entry.reply.same(&expected) {
        Ok(Judged::Right)
    } else {
        Ok(Judged::Fault(Some(expected)))
    }
}
