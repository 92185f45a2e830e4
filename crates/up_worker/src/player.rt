ghost use Rattle.std.specs.Prelude.{◌≡◌, ◌^◌, ◌<◌, true, length, IfOk, IfErr, OnOk, OnErr};
ghost use Rattle.up_worker.specs.Calls.{fits_line};
ghost use Rattle.up_worker.specs.Playing.{unborn_player, wants_of, is_begun, begins_line, begins_end, hears_next};
ghost use Rattle.up_worker.specs.Wishes.{answers};

use crate::actor::Actor;
use crate::paging::Paging;
use crate::wish::{Heard, Wanted, Wish};
use std::alloc::Global;
use std::marker::Model;
use up_num::Memory;
use up_script::{Action, Kind, Line, Numbers};

/// One user, raw pager, worker or evictor of a script. It does nothing by itself: after each answer it says
/// what is to be done next.
#[derive(Debug, Drop)]
pub struct Player {
    calls: Actor,
    paging: Paging,
}

impl Model for Player {
    ghost use Rattle.up_worker.specs.Playing.{Playing, PlaysOne};

    ghost Value = { Playing };

    ghost view = { λ p. record { calls = p.calls; paging = p.paging } };

    ghost invariant = { λ p. PlaysOne (record { calls = p.calls; paging = p.paging }) };
}

impl Player {
    /// The actor before its first line, with the objects of its declaration; an evictor's are all objects.
    pub fn new(alloc: Global, who: u32, kind: Kind, objects: Numbers) -> Player
        requires { length objects < 2 ^ 32 }
        ensures { result ≡ unborn_player who kind objects }
    {
        Player {
            calls: Actor::new(alloc, who, kind, objects),
            paging: Paging::new(alloc),
        }
    }

    /// The number of the actor.
    pub fn who(&self) -> u32
        ensures { result ≡ self.now.calls.who }
    {
        self.calls.who()
    }

    /// Which kind of answer the last wish waits for.
    pub fn wants(&self) -> Wanted
        ensures { result ≡ wants_of self.now }
    {
        if self.paging.line.is_some() {
            return self.paging.wants;
        }
        self.calls.wants()
    }

    /// Begins a line, and says the first wish. After want of memory the actor is as it was.
    pub fn begin_line(&mut self, alloc: Global, line: &Line) -> Result<Wish, Memory>
        requires free { wants_of self.old ≡ Wanted.Nothing }
        requires line { is_begun line.now.action ≡ true }
        requires limits { fits_line line.now.action ≡ true }
        ensures wish { IfOk result (λ wish. wish ≡ (begins_line self.old line.now.action).wish) }
        ensures ok { OnOk result (self.new ≡ (begins_line self.old line.now.action).player) }
        ensures err { OnErr result (self.new ≡ self.old) }
    {
        match &line.action {
            Action::Turn { object, steps } => self.paging.begin_turns(alloc, *object, *steps),
            Action::Sync { object } => Ok(self.paging.begin_sync(alloc, *object)),
            _ => self.calls.begin_line(alloc, line),
        }
    }

    /// Begins what is done behind the last line, and says the first wish: a worker goes on with turns until
    /// its object is detached, and then leaves it; all others leave. After want of memory the actor is as it
    /// was.
    pub fn begin_end(&mut self, alloc: Global) -> Result<Wish, Memory>
        requires free { wants_of self.old ≡ Wanted.Nothing }
        ensures wish { IfOk result (λ wish. wish ≡ (begins_end self.old).wish) }
        ensures ok { OnOk result (self.new ≡ (begins_end self.old).player) }
        ensures err { OnErr result (self.new ≡ self.old) }
    {
        match self.calls.to_serve(alloc)? {
            Some(object) => self.paging.begin_serving(alloc, object),
            None => self.calls.begin_end(alloc),
        }
    }

    /// Hears what became of the last wish, and says the next one. After want of memory the actor is as it
    /// was, and what was to be heard comes back.
    pub fn next(&mut self, alloc: Global, heard: Heard) -> Result<Wish, (Memory, Heard)>
        requires { answers (wants_of self.old) heard ≡ true }
        ensures wish { IfOk result (λ wish. wish ≡ (hears_next self.old heard).wish) }
        ensures ok { OnOk result (self.new ≡ (hears_next self.old heard).player) }
        ensures err { OnErr result (self.new ≡ self.old) }
        ensures back { IfErr result (λ failed. failed.1 ≡ heard) }
    {
        match self.paging.line {
            Some(line) => match self.paging.next(alloc, line, &heard) {
                Ok(wish) => Ok(wish),
                Err(memory) => Err((memory, heard)),
            },
            None => self.calls.next(alloc, heard),
        }
    }
}
