ghost use Rattle.std.specs.Prelude.{◌≡◌};
ghost use Rattle.up_steps.specs.Told.{is_played};
ghost use Rattle.pagerd.specs.Built as built;

use up_model::Birth;
use up_script::{Action, ActorLine, Kind, Line, ObjectLine, Script};

/// The first line of a form that isn't built.
pub fn find_unbuilt(script: &Script) -> Option<u32>
    ensures { result ≡ built.unbuilt_line script.now }
{
    if let Some(line) = find_object(script.objects.as_slice()) {
        return Some(line);
    }
    if let Some(line) = find_actor(script.actors.as_slice()) {
        return Some(line);
    }
    find_line(script.lines.as_slice())
}

fn is_built_action(action: &Action) -> bool
    ensures { result ≡ is_played action.now }
{
    match action {
        Action::Sync { .. } | Action::Turn { .. } => false,
        _ => true,
    }
}

fn is_built_birth(birth: &Birth) -> bool
    ensures { result ≡ built.is_built_birth birth.now }
{
    !birth.image
}

fn is_built_actor(actor: &ActorLine) -> bool
    ensures { result ≡ built.is_built_actor actor.now }
{
    !matches!(actor.kind, Kind::Worker)
}

#[tactic(auto, using(crate::proofs::FirstFailing::failing_here, crate::proofs::FirstFailing::failing_more, crate::proofs::FirstFailing::failing_nowhere))]
fn find_object(objects: &[ObjectLine]) -> Option<u32>
    ensures { result ≡ built.first_failing built.is_built_object built.object_number objects.now }
{
    for object in objects {
        if !is_built_birth(&object.birth) {
            return Some(object.number);
        }
    }
    None
}

#[tactic(auto, using(crate::proofs::FirstFailing::failing_here, crate::proofs::FirstFailing::failing_more, crate::proofs::FirstFailing::failing_nowhere))]
fn find_actor(actors: &[ActorLine]) -> Option<u32>
    ensures { result ≡ built.first_failing built.is_built_actor built.actor_number actors.now }
{
    for actor in actors {
        if !is_built_actor(actor) {
            return Some(actor.number);
        }
    }
    None
}

#[tactic(auto, using(crate::proofs::FirstFailing::failing_here, crate::proofs::FirstFailing::failing_more, crate::proofs::FirstFailing::failing_nowhere))]
fn find_line(lines: &[Line]) -> Option<u32>
    ensures { result ≡ built.first_failing built.is_built_line built.line_number lines.now }
{
    for line in lines {
        if !is_built_action(&line.action) {
            return Some(line.number);
        }
    }
    None
}
