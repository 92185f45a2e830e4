//! Stages looked up and changed by actor.
ghost use Rattle.std.specs.Prelude.{◌≡◌, ℕ, ◌+◌, ◌<◌, ◌≤◌, List, Some, suc, length, vec_capacity, IfOk};
ghost use Rattle.up_site.specs.declared.stage.Stage.TheVariants.{Copied as CopiedStage};
ghost use Rattle.up_site.specs.Stages.{stage_at, tours_with, tours_without};
ghost use Rattle.up_site.specs.Places.{place_at, progress_at, IsCopied, bytes_held};

use crate::stage::{Stage, Tour};
use std::alloc::Global;
use up_num::{Bytes, Memory, PageNo, PageRange};

// How far an actor has come, without its bytes.
#[derive(Clone, Copy, Debug)]
pub(crate) enum Progress {
    Free,
    Read(PageNo),
    Unread(PageNo),
    Begun {
        range: PageRange,
        number: Option<u64>,
    },
    Copied {
        range: PageRange,
        number: Option<u64>,
        stored: u32,
    },
}

// The place of an actor's stage, or the number of stages.
pub(crate) fn place_of(tours: &Vec<Tour>, who: u32) -> usize
    ensures value { result ≡ place_at tours.now.items who }
{
    let mut place = 0;
    while place < tours.len() && tours[place].who != who {
        place += 1;
    }
    place
}

fn progress_in(stage: &Stage) -> Progress
    ensures { result ≡ progress_at (Some stage.now) }
{
    match stage {
        Stage::Fetched { page, block } => {
            if block.is_some() {
                Progress::Read(*page)
            } else {
                Progress::Unread(*page)
            }
        }
        Stage::Begun { range, number } => Progress::Begun {
            range: *range,
            number: *number,
        },
        Stage::Copied {
            range,
            number,
            bytes: _,
            stored,
        } => Progress::Copied {
            range: *range,
            number: *number,
            stored: *stored,
        },
    }
}

// How far an actor has come.
pub(crate) fn progress_of(tours: &Vec<Tour>, who: u32) -> Progress
    ensures { result ≡ progress_at (stage_at tours.now.items who) }
{
    let place = place_of(tours, who);
    if place < tours.len() {
        progress_in(&tours[place].stage)
    } else {
        Progress::Free
    }
}

// Sets an actor's stage, for which there is room.
pub(crate) fn set_stage(tours: &mut Vec<Tour>, who: u32, stage: Stage)
    requires { length tours.old.items + 1 ≤ vec_capacity tours.old }
    ensures { tours.new.items ≡ tours_with who stage tours.old.items }
{
    let place = place_of(tours, who);
    let tour = Tour { who, stage };
    if place < tours.len() {
        tours[place] = tour;
    } else {
        tours.push_reserved(tour);
    }
}

// One page more is stored.
pub(crate) fn move_on(
    tours: &mut Vec<Tour>,
    who: u32,
    range: PageRange,
    number: Option<u64>,
    done: u32,
)
    requires copied { IsCopied tours.old.items who range number done }
    requires less { done < range.count }
    ensures { (bytes : List ℕ) → stage_at tours.old.items who ≡ Some (CopiedStage range number bytes done)
        → tours.new.items ≡ tours_with who (CopiedStage range number bytes (suc done)) tours.old.items }
{
    let place = place_of(tours, who);
    match &mut tours[place].stage {
        Stage::Copied {
            range: _,
            number: _,
            bytes: _,
            stored,
        } => *stored += 1,
        _ => unreachable!(),
    }
}

// Takes an actor's stage away. It takes no memory.
pub(crate) fn take_out(tours: &mut Vec<Tour>, who: u32)
    ensures { tours.new.items ≡ tours_without who tours.old.items }
{
    let mut place = place_of(tours, who);
    while place < tours.len() {
        let _tour = tours.remove(place);
        place = place_of(tours, who);
    }
}

fn held_in(alloc: Global, stage: &Stage) -> Result<Bytes, Memory>
    ensures { IfOk result (λ bytes. bytes ≡ bytes_held (Some stage.now)) }
{
    match stage {
        Stage::Fetched { page: _, block } => match block {
            Some(block) => block.copy(alloc),
            None => Ok(Bytes::new(alloc)),
        },
        Stage::Begun {
            range: _,
            number: _,
        } => Ok(Bytes::new(alloc)),
        Stage::Copied {
            range: _,
            number: _,
            bytes,
            stored: _,
        } => bytes.copy(alloc),
    }
}

// A copy of the bytes that an actor has in hand.
pub(crate) fn bytes_of(alloc: Global, tours: &Vec<Tour>, who: u32) -> Result<Bytes, Memory>
    ensures { IfOk result (λ bytes. bytes ≡ bytes_held (stage_at tours.now.items who)) }
{
    let place = place_of(tours, who);
    if place < tours.len() {
        held_in(alloc, &tours[place].stage)
    } else {
        Ok(Bytes::new(alloc))
    }
}
