ghost use Rattle.std.specs.Prelude.{◌↔◌, IfOk, IsTrue};
ghost use Rattle.up_check.specs.Faults.{AreLegal, IsVerdict, tells_legal};
ghost use Rattle.up_check.specs.Judging.{IsFound};

use crate::looking::look_back;
use crate::replay::{Replayed, replay};
use crate::verdict::Verdict;
use std::alloc::Global;
use up_model::Reply;
use up_num::Memory;
use up_text::{Journals, Named};

/// How an entry stands after the entries before it.
#[derive(Debug, Drop)]
pub enum Judged {
    Right,
    Fault(Option<Reply>),
}

/// The first entry at fault in a journal, and the reply that was expected.
#[derive(Debug, Drop)]
pub struct Fault {
    pub entry: u64,
    pub expected: Option<Reply>,
}

/// How a journal is judged.
#[derive(Clone, Copy)]
enum Way {
    /// Its calls are made again on an object.
    Replay,
    /// Each entry is judged by the entries before it.
    LookBack,
}

/// Whether all journals are legal, or the first entry that is at fault, in the order of their text. A journal whose number
/// doesn't fit is told as want of memory.
pub fn check(alloc: Global, journals: &Journals) -> Result<Verdict, Memory>
    ensures told { IfOk result (IsVerdict journals.now.list) }
    ensures exact { IfOk result (λ verdict. IsTrue (tells_legal verdict) ↔ AreLegal journals.now.list) }
{
    check_by(alloc, journals, Way::Replay)
}

/// The same, found by looking back over all entries for each entry.
pub fn check_slow(alloc: Global, journals: &Journals) -> Result<Verdict, Memory>
    ensures told { IfOk result (IsVerdict journals.now.list) }
    ensures exact { IfOk result (λ verdict. IsTrue (tells_legal verdict) ↔ AreLegal journals.now.list) }
{
    check_by(alloc, journals, Way::LookBack)
}

fn check_by(alloc: Global, journals: &Journals, way: Way) -> Result<Verdict, Memory>
    ensures told { IfOk result (IsVerdict journals.now.list) }
    ensures exact { IfOk result (λ verdict. IsTrue (tells_legal verdict) ↔ AreLegal journals.now.list) }
{
    for number in 0..journals.len() {
        if let Some(Fault { entry, expected }) = find_fault(alloc, journals.at(number), way)? {
            let Ok(journal) = u32::try_from(number) else {
                return Err(Memory {});
            };
            return Ok(Verdict::First {
                journal,
                entry,
                expected,
            });
        }
    }
    Ok(Verdict::Legal)
}

/// The first entry at fault in a journal. One that no object can have is looked back over.
fn find_fault(alloc: Global, journal: &Named, way: Way) -> Result<Option<Fault>, Memory>
    ensures { IfOk result (IsFound journal.now) }
{
    match way {
        Way::Replay => match replay(alloc, journal)? {
            Replayed::Found(found) => Ok(found),
            Replayed::TooLarge => look_back(alloc, journal),
        },
        Way::LookBack => look_back(alloc, journal),
    }
}
