ghost use Rattle.std.specs.Prelude.{◌≡◌, IfOk, OnErr};
ghost use Rattle.up_evictor.specs.Relief.{Relieved, RelievedInPart};
ghost use Rattle.up_evictor.specs.Passes.{Passed, PassedInPart, Turned};

use crate::herd::Herd;
use crate::levels::Level;
use std::alloc::Global;
use up_num::Memory;

/// The age class from which on pages are asked for first.
const OLD: u32 = 4;

/// The age class of all pages.
const ANY: u32 = 0;

/// How many pages were made absent, and whether these are fewer than were wanted.
#[derive(Clone, Copy, PartialEq, Eq, Debug)]
pub struct Relief {
    pub freed: u32,
    pub short: bool,
}

/// Makes pages absent until so many are, by passes over the objects in order: one over old pages at Warning, then one over
/// all at Critical and Empty, none at Normal. Each object is asked for what is still wanted.
pub fn relieve<H: Herd>(
    alloc: Global,
    herd: &mut H,
    want: u32,
    level: Level,
) -> Result<Relief, Memory>
    ensures ok { IfOk result (λ relief. Relieved want level (H.size herd.old) (H.reclaims herd.old) (H.reclaims herd.new) relief) }
    ensures err { OnErr result (RelievedInPart want level (H.size herd.old) (H.reclaims herd.old) (H.reclaims herd.new)) }
    ensures size { H.size herd.new ≡ H.size herd.old }
    ensures origin { H.origin herd.new ≡ H.origin herd.old }
{
    let left = turn(alloc, herd, want, level)?;
    Ok(Relief {
        freed: want - left,
        short: left > 0,
    })
}

// Makes the passes of a level, and says how many pages are still wanted.
fn turn<H: Herd>(alloc: Global, herd: &mut H, want: u32, level: Level) -> Result<u32, Memory>
    ensures ok { IfOk result (λ left. Turned want left level (H.size herd.old) (H.reclaims herd.old) (H.reclaims herd.new)) }
    ensures err { OnErr result (RelievedInPart want level (H.size herd.old) (H.reclaims herd.old) (H.reclaims herd.new)) }
    ensures size { H.size herd.new ≡ H.size herd.old }
    ensures origin { H.origin herd.new ≡ H.origin herd.old }
{
    match level {
        Level::Normal => Ok(want),
        Level::Warning => pass(alloc, herd, OLD, want),
        Level::Critical | Level::Empty => {
            let left = pass(alloc, herd, OLD, want)?;
            pass(alloc, herd, ANY, left)
        }
    }
}

// Asks each object in order for what is still wanted, until nothing is, and says how many pages are still wanted.
fn pass<H: Herd>(alloc: Global, herd: &mut H, limit: u32, want: u32) -> Result<u32, Memory>
    ensures ok { IfOk result (λ left. Passed want left limit (H.size herd.old) (H.reclaims herd.old) (H.reclaims herd.new)) }
    ensures err { OnErr result (PassedInPart want limit (H.size herd.old) (H.reclaims herd.old) (H.reclaims herd.new)) }
    ensures size { H.size herd.new ≡ H.size herd.old }
    ensures origin { H.origin herd.new ≡ H.origin herd.old }
{
    let mut left = want;
    for object in 0..herd.objects() {
        if left == 0 {
            return Ok(0);
        }
        let pages = herd.evict(alloc, object, limit, left)?;
        left -= pages.len() as u32;
    }
    Ok(left)
}
