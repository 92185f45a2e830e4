ghost use Rattle.std.specs.Prelude.{◌≡◌, ◌<◌, ◌≤◌, true, length, Ok, IfOk};
ghost use Rattle.up_words.specs.ReadSteps.{Gives, or_why};
ghost use Rattle.up_words.specs.declared.fault.Why.TheVariants.{Word};
ghost use Rattle.up_script.specs.Verbs.{verb_of};
ghost use Rattle.up_script.specs.Actions.{actor_in, suits_mode, has_what_it_needs, may_act, bytes_of, with_line, act};
ghost use Rattle.up_script.specs.Sound.{are_sound_lines};

use crate::declarations::Declared;
use crate::fields::read_by_verb;
use crate::played::{Played, note_leave};
use crate::script::{Action, Line};
use crate::verbs::{Verb, read_verb};
use std::alloc::Global;
use up_model::Call;
use up_words::{Stop, Why, Words};

fn read_known_verb(version: u32, words: &Words<'_>) -> Result<Verb, Stop>
    ensures { Gives (λ verb. verb) result (or_why Word (verb_of version words.now)) }
{
    match read_verb(version, words) {
        None => Err(Stop::Found(Why::Word)),
        Some(verb) => Ok(verb),
    }
}

fn read_actor(declared: &Declared, word: &[u8]) -> Result<u32, Stop>
    ensures value { Gives (λ actor. actor) result (actor_in declared.now word.now) }
    ensures within { IfOk result (λ actor. actor < length declared.now.actors) }
{
    match declared.actors.find(word) {
        None => Err(Stop::Found(Why::Name)),
        Some(actor) => Ok(actor),
    }
}

fn suits_mode(numbered: bool, call: &Call) -> bool
    ensures { result ≡ suits_mode numbered call.now }
{
    match call {
        Call::End { of, .. } => of.is_some() == numbered,
        _ => true,
    }
}

fn has_needs(declared: &Declared, action: &Action) -> bool
    ensures { result ≡ has_what_it_needs declared.now action.now }
{
    match action {
        Action::Sync { object } => declared.objects.has_image(*object),
        Action::Act { object, call } => suits_mode(declared.objects.is_numbered(*object), call),
        _ => true,
    }
}

fn is_role(declared: &Declared, actor: u32, verb: Verb, action: &Action) -> bool
    ensures { result ≡ may_act declared.now actor verb action.now }
{
    verb.is_said_by(declared.actors.kind_of(actor))
        && declared.actors.is_bound(actor, action.object())
        && has_needs(declared, action)
}

fn add_line(played: Played, number: u32, actor: u32, action: Action) -> Result<Played, Stop>
    requires { bytes_of action ≤ played.room }
    ensures { Gives (λ more. more) result (Ok (with_line played number actor action)) }
{
    let room = played.room - action.bytes();
    let Played {
        mut lines,
        room: _,
        left,
    } = played;
    let left = note_leave(left, actor, &action)?;
    lines.push(Line {
        number,
        actor,
        action,
    })?;
    Ok(Played { lines, room, left })
}

/// A line of an actor, with its number in the text.
pub fn read_action(
    alloc: Global,
    declared: &Declared,
    number: u32,
    played: Played,
    words: &Words<'_>,
) -> Result<Played, Stop>
    ensures value { Gives (λ more. more) result (act declared.now number played words.now) }
    ensures sound { are_sound_lines (length declared.now.objects) (length declared.now.actors) played.lines ≡ true
        → IfOk result (λ more. are_sound_lines (length declared.now.objects) (length declared.now.actors) more.lines ≡ true) }
{
    let verb = read_known_verb(declared.version, words)?;
    let actor = read_actor(declared, words.at(0))?;
    let action = read_by_verb(alloc, declared, declared.actors.kind_of(actor), verb, words)?;
    if !is_role(declared, actor, verb, &action) {
        return Err(Stop::Found(Why::Role));
    }
    if played.has_left(actor, action.object()) {
        return Err(Stop::Found(Why::Left));
    }
    if played.room < action.bytes() {
        return Err(Stop::Found(Why::Limit));
    }
    add_line(played, number, actor, action)
}
