ghost use Rattle.std.specs.Prelude.{◌≡◌, ◌<◌, ◌^◌, ◌≤◌, length, IfOk};
ghost use Rattle.up_stage.specs.Played.{births_of};
ghost use Rattle.up_stage.specs.Scheduled.{unborn_from};

use std::alloc::Global;
use up_model::Birth;
use up_num::Memory;
use up_script::{ActorLine, Numbers, ObjectLine};
use up_worker::Actor;

/// A script's actors, each before its first line.
pub(crate) fn actors_of(alloc: Global, lines: &[ActorLine]) -> Result<Vec<Actor>, Memory>
    requires { length lines.now ≤ 64 }
    ensures { IfOk result (λ actors. actors.items ≡ unborn_from 0 lines.now) }
{
    let mut actors = Vec::with_capacity(alloc, lines.len())?;
    for line in lines {
        let objects = copy_numbers(alloc, &line.objects)?;
        let who = actors.len() as u32;
        actors.push_reserved(Actor::new(alloc, who, line.kind, objects));
    }
    Ok(actors)
}

/// What a script's objects are born with.
pub fn births_of(alloc: Global, objects: &[ObjectLine]) -> Result<Vec<Birth>, Memory>
    ensures { IfOk result (λ births. births.items ≡ births_of objects.now) }
{
    let mut births = Vec::with_capacity(alloc, objects.len())?;
    for object in objects {
        births.push_reserved(object.birth);
    }
    Ok(births)
}

/// A copy of fewer than 2^32 numbers; of more there is want of memory.
fn copy_numbers(alloc: Global, numbers: &Numbers) -> Result<Numbers, Memory>
    ensures value { IfOk result (λ copy. copy ≡ numbers.now) }
    ensures few { IfOk result (λ copy. length copy < 2 ^ 32) }
{
    if u32::try_from(numbers.len()).is_err() {
        return Err(Memory {});
    }
    Ok(Numbers::from_vec(Vec::from_slice(alloc, numbers.as_slice())?))
}
