ghost use Rattle.std.specs.Prelude.{◌≡◌, ◌+◌, ◌<◌, ◌^◌, not, IfOk};
ghost use Rattle.up_span.specs.Runs.{runs as maximal_runs};
ghost use Rattle.up_span.specs.Sets.{holds, AreSpans};

use crate::Memory;
use crate::run::Run;
use crate::runs::Runs;
use crate::search::{ended_by, run_at};
use crate::stretch::{Stretch, push_stretch};
use std::alloc::Global;

/// The maximal runs of a range's pages that are in none of these runs.
pub(crate) fn gaps_of(
    alloc: Global,
    runs: &Vec<Run>,
    first: u32,
    count: u32,
) -> Result<Runs, Memory>
    requires spans { AreSpans runs.now.items }
    requires below { first + count < 2 ^ 32 }
    ensures { IfOk result (λ outside. outside ≡ maximal_runs (λ page. not (holds runs.now.items page)) first 0 count) }
{
    let end = first + count;
    let mut place = ended_by(runs, first);
    let mut outside = Runs::new(alloc);
    let mut next = first;
    while place < runs.len() && run_at(runs, place).first < end {
        let run = run_at(runs, place);
        let gap = Stretch {
            from: next,
            to: run.first,
        };
        push_stretch(&mut outside, gap)?;
        next = run.first + run.count;
        place += 1;
    }
    let rest = Stretch {
        from: next,
        to: end,
    };
    push_stretch(&mut outside, rest)?;
    Ok(outside)
}
