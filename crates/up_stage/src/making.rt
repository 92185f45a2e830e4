ghost use Rattle.std.specs.Prelude.{◌≡◌, ◌+◌, ◌*◌, ◌%◌, ◌<◌, ◌≤◌, ◌++◌, [], ◌∷◌, length, IfOk, OnOk};
ghost use Rattle.up_script.specs.declared.script.Action.TheVariants as actions;
ghost use Rattle.up_stage.specs.Played.{IsPlayable};
ghost use Rattle.up_stage.specs.Rounds.{round_of, rounds, numbered, supplies, accesses, all_pages, generated, generated_object, writes_back};

use std::alloc::Global;
use up_model::{Birth, Brought, Call};
use up_num::{Bytes, Items, Memory, PageRange};
use up_script::{Action, ActorLine, Kind, Line, Lines, Numbers, ObjectLine, Script};

/// How many pages the object has.
const PAGES: u32 = 256;
/// The actors' numbers.
const USER: u32 = 0;

const PAGER: u32 = 1;
/// The line of the text at which the actions begin.
const FIRST: u32 = 7;

/// The script of a seed: in each round a page of one object is supplied and a byte of it is written or read, and every sixteenth time
/// all pages are written back.
pub fn generate(alloc: Global, seed: u64, count: u32) -> Result<Script, Memory>
    requires { count ≤ 12000 }
    ensures script { IfOk result (λ script. script ≡ generated seed count) }
    ensures playable { IfOk result (λ script. IsPlayable script) }
{
    let lines = lines_of(alloc, seed, count)?;
    let object = object_line(alloc)?;
    let user = actor_line(alloc, 4, b"u", Kind::User)?;
    let pager = actor_line(alloc, 5, b"p", Kind::Pager)?;
    let mut objects = Vec::with_capacity(alloc, 1)?;
    objects.push_reserved(object);
    let mut actors = Vec::with_capacity(alloc, 2)?;
    actors.push_reserved(user);
    actors.push_reserved(pager);
    Ok(Script {
        version: 1,
        frames: 64,
        frames_line: 2,
        loan: 0,
        loan_line: 0,
        warn: 16,
        critical: 8,
        objects: Items::from_vec(objects),
        actors: Items::from_vec(actors),
        lines,
    })
}

fn object_line(alloc: Global) -> Result<ObjectLine, Memory>
    ensures { IfOk result (λ object. object ≡ generated_object) }
{
    Ok(ObjectLine {
        number: 3,
        name: Bytes::from_slice(alloc, b"g")?,
        birth: Birth {
            pages: PAGES,
            limit: None,
            trap: false,
            users: 1,
            pagers: 1,
            image: false,
            numbered: false,
        },
        image: None,
    })
}

fn actor_line(alloc: Global, number: u32, name: &[u8], kind: Kind) -> Result<ActorLine, Memory>
    ensures { IfOk result (λ actor. actor ≡ record { number = number; name = name.now; kind = kind; objects = 0 ∷ [] }) }
{
    Ok(ActorLine {
        number,
        name: Bytes::from_slice(alloc, name)?,
        kind,
        objects: first_object(alloc)?,
    })
}

/// The number of the one object.
fn first_object(alloc: Global) -> Result<Numbers, Memory>
    ensures { IfOk result (λ numbers. numbers ≡ 0 ∷ []) }
{
    let mut numbers = Numbers::new(alloc);
    match numbers.push(0) {
        Ok(()) => Ok(numbers),
        Err(_) => Err(Memory {}),
    }
}

/// The next number behind one of the sequence.
fn next_number(number: u64) -> u64
    requires { number < 65537 }
    ensures value { result ≡ (75 * number + 74) % 65537 }
    ensures small { result < 65537 }
{
    (75 * number + 74) % 65537
}

fn lines_of(alloc: Global, seed: u64, count: u32) -> Result<Lines, Memory>
    requires { count ≤ 12000 }
    ensures { IfOk result (λ lines. lines ≡ numbered 7 (rounds seed count)) }
{
    let mut lines = Lines::new(alloc);
    let mut number = seed % 65537;
    for place in 0..count {
        number = next_number(number);
        put_round(alloc, &mut lines, number, place + 1)?;
    }
    Ok(lines)
}

/// Appends what is done in a round: a supply, an access, and every sixteenth time a writeback.
fn put_round(alloc: Global, lines: &mut Lines, number: u64, round: u32) -> Result<(), Memory>
    requires small { number < 65537 }
    requires few { length lines.old < 1000000 }
    ensures { OnOk result (lines.new ≡ lines.old ++ numbered (7 + length lines.old) (round_of number round)) }
{
    let page = (number % 256) as u32;
    put_line(lines, PAGER, supply_page(alloc, page)?)?;
    put_line(lines, USER, access_page(alloc, number, round)?)?;
    if round % 16 == 0 {
        return put_writeback(lines);
    }
    Ok(())
}

/// Appends a writeback of all pages.
fn put_writeback(lines: &mut Lines) -> Result<(), Memory>
    requires { length lines.old < 1000002 }
    ensures { OnOk result (lines.new ≡ lines.old ++ numbered (7 + length lines.old) writes_back) }
{
    let begin = Call::Begin {
        range: all_pages(),
        zero: false,
    };
    put_line(lines, PAGER, act(begin))?;
    let end = Call::End {
        range: all_pages(),
        of: None,
    };
    put_line(lines, PAGER, act(end))
}

fn put_line(lines: &mut Lines, actor: u32, action: Action) -> Result<(), Memory>
    requires { length lines.old < 1000004 }
    ensures { OnOk result (lines.new ≡ lines.old ++ record { number = 7 + length lines.old; actor = actor; action = action } ∷ []) }
{
    let number = FIRST + lines.len() as u32;
    let line = Line {
        number,
        actor,
        action,
    };
    match lines.push(line) {
        Ok(()) => Ok(()),
        Err(_) => Err(Memory {}),
    }
}

fn act(call: Call) -> Action
    ensures { result ≡ actions.Act 0 call }
{
    Action::Act { object: 0, call }
}

fn all_pages() -> PageRange
    ensures { result ≡ all_pages }
{
    PageRange {
        first: 0,
        count: PAGES,
    }
}

/// Supplies a page with bytes that all are its number.
fn supply_page(alloc: Global, page: u32) -> Result<Action, Memory>
    requires { page < 256 }
    ensures { IfOk result (λ action. action ≡ (supplies page).action) }
{
    let bytes = vec![in alloc; page as u8; 4096]?;
    Ok(act(Call::Supply {
        range: PageRange {
            first: page,
            count: 1,
        },
        bytes: Items::from_vec(bytes),
        brought: Brought::Nothing,
    }))
}

/// Writes the round's number into a byte of the page, or reads that byte.
fn access_page(alloc: Global, number: u64, round: u32) -> Result<Action, Memory>
    requires { number < 65537 }
    ensures { IfOk result (λ action. action ≡ (accesses number round).action) }
{
    let off = 4096 * (number % 256) + u64::from(round % 4096);
    if number / 256 % 2 == 0 {
        let bytes = one_byte(alloc, (round % 256) as u8)?;
        return Ok(Action::Write {
            object: 0,
            off,
            bytes,
        });
    }
    Ok(Action::Read {
        object: 0,
        off,
        len: 1,
    })
}

fn one_byte(alloc: Global, byte: u8) -> Result<Bytes, Memory>
    ensures { IfOk result (λ bytes. bytes ≡ byte ∷ []) }
{
    let mut bytes = Bytes::new(alloc);
    match bytes.push(byte) {
        Ok(()) => Ok(bytes),
        Err(_) => Err(Memory {}),
    }
}
