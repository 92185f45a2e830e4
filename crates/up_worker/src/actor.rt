ghost use Rattle.std.specs.Prelude.{◌≡◌, ◌^◌, ◌<◌, [], true, false, not, cond, length, filter, IfOk, IfErr, OnOk, OnErr};
ghost use Rattle.up_script.specs.Objects.{is_evictor, is_worker};
ghost use Rattle.up_worker.specs.Acting.{unborn, with_leave, first_wish, started, next_wish, next_acting, has, to_leave, is_plain};
ghost use Rattle.up_worker.specs.Calls.{fits_line};
ghost use Rattle.up_worker.specs.Playing.{to_serve};
ghost use Rattle.up_worker.specs.Wishes.{answers};
ghost use Rattle.up_worker.specs.declared.course.Doing.TheVariants.{OneLine, Leaving};

use crate::copies::copy_action;
use crate::course::Doing;
use crate::line_calls::number_at;
use crate::wish::{Heard, Wanted, Wish};
use crate::wishing::{Place, begins, place_after, wish_after};
use std::alloc::Global;
use std::marker::Model;
use up_model::Call;
use up_num::Memory;
use up_script::{Action, Kind, Line, Numbers};

/// One user, raw pager or evictor of a script. It does nothing by itself: after each answer it says what is to be done next.
#[derive(Debug, Drop)]
pub struct Actor {
    who: u32,
    kind: Kind,
    objects: Numbers,
    left: Numbers,
    doing: Doing,
    at: Place,
    wants: Wanted,
}

impl Model for Actor {
    ghost use Rattle.up_worker.specs.Acting.{Acting, Sound};
    ghost use Rattle.up_worker.specs.Viewing.{acting_of};

    ghost Value = { Acting };

    ghost view = { λ a. acting_of a.who a.kind a.objects a.left a.doing a.at a.wants };

    ghost invariant = { λ a. Sound (acting_of a.who a.kind a.objects a.left a.doing a.at a.wants) };
}

impl Actor {
    /// The actor before its first line, with the objects of its declaration; an evictor's are all objects.
    pub fn new(alloc: Global, who: u32, kind: Kind, objects: Numbers) -> Actor
        requires { length objects < 2 ^ 32 }
        ensures { result ≡ unborn who kind objects }
    {
        Actor {
            who,
            kind,
            objects,
            left: Numbers::new(alloc),
            doing: Doing::Idle,
            at: Place {
                settled: 0,
                ticket: None,
            },
            wants: Wanted::Nothing,
        }
    }

    /// The number of the actor.
    pub fn who(&self) -> u32
        ensures { result ≡ self.now.who }
    {
        self.who
    }

    /// Which kind of answer the last wish waits for.
    pub fn wants(&self) -> Wanted
        ensures { result ≡ self.now.wants }
    {
        self.wants
    }

    /// Begins a line, and says the first wish. After want of memory the actor is as it was.
    pub fn begin_line(&mut self, alloc: Global, line: &Line) -> Result<Wish, Memory>
        requires free { self.old.wants ≡ Wanted.Nothing }
        requires plain { is_plain line.now.action ≡ true }
        requires limits { fits_line line.now.action ≡ true }
        ensures wish { IfOk result (λ wish. wish ≡ first_wish self.old (OneLine line.now.action)) }
        ensures ok { OnOk result (self.new ≡ started self.old (OneLine line.now.action)) }
        ensures err { OnErr result (self.new ≡ self.old) }
    {
        let doing = Doing::OneLine(copy_action(alloc, &line.action)?);
        let wish = begins(alloc, self.kind, &self.objects, &doing, 0)?;
        note_leave(&mut self.left, &line.action)?;
        self.doing = doing;
        self.at = Place {
            settled: 0,
            ticket: None,
        };
        self.wants = wish.wanted();
        Ok(wish)
    }

    /// Begins what is done after the last line, and says the first wish. After want of memory the actor is as it was.
    pub fn begin_end(&mut self, alloc: Global) -> Result<Wish, Memory>
        requires free { self.old.wants ≡ Wanted.Nothing }
        ensures wish { IfOk result (λ wish. wish ≡ first_wish self.old (Leaving (to_leave self.old))) }
        ensures ok { OnOk result (self.new ≡ started self.old (Leaving (to_leave self.old))) }
        ensures err { OnErr result (self.new ≡ self.old) }
    {
        let left = objects_to_leave(alloc, self.kind, &self.objects, &self.left)?;
        let doing = Doing::Leaving(left);
        let wish = begins(alloc, self.kind, &self.objects, &doing, 0)?;
        self.doing = doing;
        self.at = Place {
            settled: 0,
            ticket: None,
        };
        self.wants = wish.wanted();
        Ok(wish)
    }

    // The object that a worker goes on to serve behind its last line, where it hasn't left it.
    pub(crate) fn to_serve(&self, alloc: Global) -> Result<Option<u32>, Memory>
        ensures { IfOk result (λ found. found ≡ to_serve self.now) }
    {
        if !is_worker(self.kind) {
            return Ok(None);
        }
        let left = objects_to_leave(alloc, self.kind, &self.objects, &self.left)?;
        Ok(number_at(&left, 0))
    }

    /// Hears what became of the last wish, and says the next one. After want of memory the actor is as it was, and what was to
    /// be heard comes back.
    pub fn next(&mut self, alloc: Global, heard: Heard) -> Result<Wish, (Memory, Heard)>
        requires { answers self.old.wants heard ≡ true }
        ensures wish { IfOk result (λ wish. wish ≡ next_wish self.old heard) }
        ensures ok { OnOk result (self.new ≡ next_acting self.old heard) }
        ensures err { OnErr result (self.new ≡ self.old) }
        ensures back { IfErr result (λ failed. failed.1 ≡ heard) }
    {
        let at = place_after(self.at, &heard);
        match wish_after(alloc, self.kind, &self.objects, &self.doing, at, &heard) {
            Ok(wish) => {
                drop(heard);
                self.at = at;
                self.wants = wish.wanted();
                Ok(wish)
            }
            Err(memory) => Err((memory, heard)),
        }
    }
}

// Notes the object that a line leaves.
fn note_leave(left: &mut Numbers, action: &Action) -> Result<(), Memory>
    ensures ok { OnOk result (left.new ≡ with_leave left.old action.now) }
    ensures err { OnErr result (left.new ≡ left.old) }
{
    if let Action::Act {
        object,
        call: Call::Leave { .. },
    } = action
    {
        if left.push(*object).is_err() {
            return Err(Memory {});
        }
    }
    Ok(())
}

// Those of the objects that weren't left. An evictor leaves none.
fn objects_to_leave(
    alloc: Global,
    kind: Kind,
    objects: &Numbers,
    left: &Numbers,
) -> Result<Numbers, Memory>
    ensures { IfOk result (λ found. found ≡ cond (is_evictor kind) [] (filter (λ object. not (has left.now object)) objects.now)) }
{
    let mut found = Numbers::new(alloc);
    if is_evictor(kind) {
        return Ok(found);
    }
    for object in objects.as_slice() {
        if !has(left, *object) {
            if found.push(*object).is_err() {
                return Err(Memory {});
            }
        }
    }
    Ok(found)
}

fn is_evictor(kind: Kind) -> bool
    ensures { result ≡ is_evictor kind }
{
    match kind {
        Kind::Evictor => true,
        _ => false,
    }
}

fn is_worker(kind: Kind) -> bool
    ensures { result ≡ is_worker kind }
{
    match kind {
        Kind::Worker => true,
        _ => false,
    }
}

fn has(numbers: &Numbers, number: u32) -> bool
    ensures { result ≡ has numbers.now number }
{
    numbers.as_slice().iter().any(|one| *one == number)
}
