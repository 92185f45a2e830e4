ghost use Rattle.std.specs.Prelude.{◌≡◌, length, replicate, IfOk, OnOk};
ghost use Rattle.up_stage.specs.Played.{new_hands, ArePlayed, IsPlayable};
ghost use Rattle.up_stage.specs.Scheduled.{unborn_from};

use crate::actors::actors_of;
use crate::scheduler::Scheduler;
use std::alloc::Global;
use up_num::Memory;
use up_script::Script;
use up_steps::{Hands, doing_wishes_makes_the_steps};
use up_worker::Actor;

/// Does a script's lines in file order, each as far as its actor comes, by these hands, which have done nothing yet. They are given
/// back whatever happens.
pub fn play<H: Hands>(alloc: Global, script: &Script, hands: H) -> (H, Result<(), Memory>)
    requires playable { IsPlayable script.now }
    requires fresh { H.shown hands ≡ new_hands script.now }
    ensures { OnOk result.1 (ArePlayed script.now (H.shown result.0)) }
{
    doing_wishes_makes_the_steps();
    let (actors, done) = match before_lines(alloc, script) {
        Ok(both) => both,
        Err(memory) => return (hands, Err(memory)),
    };
    let mut scheduler = Scheduler::new(hands, actors, done);
    let played = scheduler.all_lines(alloc, script.lines.as_slice());
    (scheduler.end(), played)
}

/// A script's actors before the first line, and that none has begun a line.
fn before_lines(alloc: Global, script: &Script) -> Result<(Vec<Actor>, Vec<usize>), Memory>
    requires { IsPlayable script.now }
    ensures actors { IfOk result (λ both. both.0.items ≡ unborn_from 0 script.now.actors) }
    ensures done { IfOk result (λ both. both.1.items ≡ replicate (length script.now.actors) 0) }
{
    let actors = actors_of(alloc, script.actors.as_slice())?;
    let done = vec![in alloc; 0; actors.len()]?;
    Ok((actors, done))
}
