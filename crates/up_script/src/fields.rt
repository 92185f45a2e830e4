ghost use Rattle.std.specs.Prelude.{◌≡◌, ◌<◌, true, length, IfOk};
ghost use Rattle.up_words.specs.ReadSteps.{Gives};
ghost use Rattle.up_script.specs.Actions.{range_in, read_fields, write_fields, supply_fields, range_fields, end_fields, query_fields, resize_fields, turn_fields, evict_fields, borrow_fields, fields_of, alone_of, action_in};
ghost use Rattle.up_script.specs.Sound.{is_sound_range, is_sound_action};

use crate::declarations::Declared;
use crate::script::{Action, Kind};
use crate::verbs::{Lone, On, Over, Verb, role_in};
use std::alloc::Global;
use up_model::{Brought, Call};
use up_num::{PageNo, PageRange};
use up_words::{Stop, Words, read_between, read_bytes};

/// The greatest offset in an object of 2^31 pages.
const OFFSETS: u64 = 8_796_093_022_208;
/// The greatest first page.
const FIRST: u64 = 2_147_483_648;
/// The greatest size of an object, and the greatest count of a range.
const PAGES: u64 = 65_536;
/// The greatest length of an access.
const LENGTH: u32 = 65_536;
/// The bytes of a page.
const PAGE: u32 = 4096;

/// A first page and a count, from this place on.
fn read_range(words: &Words<'_>, place: usize) -> Result<PageRange, Stop>
    requires { place < 4096 }
    ensures value { Gives (λ range. range) result (range_in words.now place) }
    ensures sound { IfOk result (λ range. is_sound_range range ≡ true) }
{
    let first = read_between(0, FIRST, words.at(place))? as u32;
    let count = read_between(1, PAGES, words.at(place + 1))? as u32;
    Ok(PageRange { first, count })
}

fn read_read(objects: u32, object: u32, words: &Words<'_>) -> Result<Action, Stop>
    requires { object < objects }
    ensures value { Gives (λ action. action) result (read_fields object words.now) }
    ensures sound { IfOk result (λ action. is_sound_action objects action ≡ true) }
{
    let off = read_between(0, OFFSETS, words.at(3))?;
    let len = read_between(1, u64::from(LENGTH), words.at(4))? as u32;
    Ok(Action::Read { object, off, len })
}

fn read_write(alloc: Global, objects: u32, object: u32, words: &Words<'_>) -> Result<Action, Stop>
    requires { object < objects }
    ensures value { Gives (λ action. action) result (write_fields object words.now) }
    ensures sound { IfOk result (λ action. is_sound_action objects action ≡ true) }
{
    let off = read_between(0, OFFSETS, words.at(3))?;
    let bytes = read_bytes(alloc, 1, LENGTH, words.at(4))?;
    Ok(Action::Write { object, off, bytes })
}

fn read_supply(alloc: Global, objects: u32, object: u32, words: &Words<'_>) -> Result<Action, Stop>
    requires { object < objects }
    ensures value { Gives (λ action. action) result (supply_fields object words.now) }
    ensures sound { IfOk result (λ action. is_sound_action objects action ≡ true) }
{
    let first = read_between(0, FIRST, words.at(3))? as u32;
    let count = read_between(1, 16, words.at(4))? as u32;
    let bytes = read_bytes(alloc, count * PAGE, count * PAGE, words.at(5))?;
    let call = Call::Supply {
        range: PageRange { first, count },
        bytes,
        brought: Brought::Nothing,
    };
    Ok(Action::Act { object, call })
}

fn read_over(verb: Over, objects: u32, object: u32, words: &Words<'_>) -> Result<Action, Stop>
    requires { object < objects }
    ensures value { Gives (λ action. action) result (range_fields verb object words.now) }
    ensures sound { IfOk result (λ action. is_sound_action objects action ≡ true) }
{
    let range = read_range(words, 3)?;
    let call = verb.call(range);
    Ok(Action::Act { object, call })
}

fn read_end(objects: u32, object: u32, words: &Words<'_>) -> Result<Action, Stop>
    requires { object < objects }
    ensures value { Gives (λ action. action) result (end_fields object words.now) }
    ensures sound { IfOk result (λ action. is_sound_action objects action ≡ true) }
{
    let range = read_range(words, 3)?;
    let of = read_between(0, u64::MAX, words.at(5))?;
    let call = Call::End {
        range,
        of: Some(of),
    };
    Ok(Action::Act { object, call })
}

fn read_query(objects: u32, object: u32, words: &Words<'_>) -> Result<Action, Stop>
    requires { object < objects }
    ensures value { Gives (λ action. action) result (query_fields object words.now) }
    ensures sound { IfOk result (λ action. is_sound_action objects action ≡ true) }
{
    let range = read_range(words, 3)?;
    let room = read_between(0, PAGES, words.at(5))? as u32;
    let call = Call::Query { range, room };
    Ok(Action::Act { object, call })
}

fn read_resize(objects: u32, object: u32, words: &Words<'_>) -> Result<Action, Stop>
    requires { object < objects }
    ensures value { Gives (λ action. action) result (resize_fields object words.now) }
    ensures sound { IfOk result (λ action. is_sound_action objects action ≡ true) }
{
    let pages = read_between(0, PAGES, words.at(3))? as u32;
    let call = Call::Resize { pages };
    Ok(Action::Act { object, call })
}

fn read_turn(objects: u32, object: u32, words: &Words<'_>) -> Result<Action, Stop>
    requires { object < objects }
    ensures value { Gives (λ action. action) result (turn_fields object words.now) }
    ensures sound { IfOk result (λ action. is_sound_action objects action ≡ true) }
{
    let steps = read_between(1, 4096, words.at(3))? as u32;
    Ok(Action::Turn { object, steps })
}

fn read_evict(objects: u32, object: u32, words: &Words<'_>) -> Result<Action, Stop>
    requires { object < objects }
    ensures value { Gives (λ action. action) result (evict_fields object words.now) }
    ensures sound { IfOk result (λ action. is_sound_action objects action ≡ true) }
{
    let limit = read_between(0, 8, words.at(3))? as u32;
    let max = read_between(0, PAGES, words.at(4))? as u32;
    let call = Call::Evict { limit, max };
    Ok(Action::Act { object, call })
}

fn read_borrow(objects: u32, object: u32, words: &Words<'_>) -> Result<Action, Stop>
    requires { object < objects }
    ensures value { Gives (λ action. action) result (borrow_fields object words.now) }
    ensures sound { IfOk result (λ action. is_sound_action objects action ≡ true) }
{
    let page = read_between(0, FIRST, words.at(3))? as u32;
    let call = Call::Borrow {
        page: PageNo(page),
        brought: Brought::Nothing,
    };
    Ok(Action::Act { object, call })
}

/// What is done on an object, by the fields behind it.
fn read_fields(
    alloc: Global,
    kind: Kind,
    verb: On,
    objects: u32,
    object: u32,
    words: &Words<'_>,
) -> Result<Action, Stop>
    requires { object < objects }
    ensures value { Gives (λ action. action) result (fields_of kind verb object words.now) }
    ensures sound { IfOk result (λ action. is_sound_action objects action ≡ true) }
{
    match verb {
        On::Read => read_read(objects, object, words),
        On::Write => read_write(alloc, objects, object, words),
        On::Supply => read_supply(alloc, objects, object, words),
        On::Range(call) => read_over(call, objects, object, words),
        On::EndOf => read_end(objects, object, words),
        On::Query => read_query(objects, object, words),
        On::Resize => read_resize(objects, object, words),
        On::Turn => read_turn(objects, object, words),
        On::Evict => read_evict(objects, object, words),
        On::Borrow => read_borrow(objects, object, words),
        On::Sync => Ok(Action::Sync { object }),
        On::Packet => Ok(Action::Act {
            object,
            call: Call::Packet,
        }),
        On::Detach => Ok(Action::Act {
            object,
            call: Call::Detach,
        }),
        On::Leave => Ok(Action::Act {
            object,
            call: Call::Leave {
                role: role_in(kind),
            },
        }),
        On::Stats(reset) => Ok(Action::Act {
            object,
            call: Call::Stats { reset },
        }),
    }
}

/// What is done on no object.
fn read_alone(verb: Lone, objects: u32, words: &Words<'_>) -> Result<Action, Stop>
    ensures value { Gives (λ action. action) result (alone_of verb words.now) }
    ensures sound { IfOk result (λ action. is_sound_action objects action ≡ true) }
{
    match verb {
        Lone::Go => Ok(Action::Go),
        Lone::Age => Ok(Action::Age),
        Lone::Watch => Ok(Action::Watch),
        Lone::Recall => Ok(Action::Recall),
        Lone::Lend => Ok(Action::Lend),
        Lone::Relieve => {
            let frames = read_between(1, 16384, words.at(2))? as u32;
            Ok(Action::Relieve(frames))
        }
    }
}

/// What a line does, by its verb and its fields from the left.
pub fn read_by_verb(
    alloc: Global,
    declared: &Declared,
    kind: Kind,
    verb: Verb,
    words: &Words<'_>,
) -> Result<Action, Stop>
    ensures value { Gives (λ action. action) result (action_in declared.now kind verb words.now) }
    ensures sound { IfOk result (λ action. is_sound_action (length declared.now.objects) action ≡ true) }
{
    let objects = declared.objects.count();
    match verb {
        Verb::Alone(verb) => read_alone(verb, objects, words),
        Verb::OnObject(verb) => {
            let object = declared.object(words.at(2))?;
            read_fields(alloc, kind, verb, objects, object, words)
        }
    }
}
