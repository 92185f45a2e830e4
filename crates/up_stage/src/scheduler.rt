ghost use Rattle.std.specs.Prelude.{◌≡◌, ◌≤◌, ◌<◌, true, false, length, slice_index, slice_set, IfOk, OnOk};
ghost use Rattle.up_steps.specs.Handed.{births_in};
ghost use Rattle.up_steps.specs.Told as told;
ghost use Rattle.up_steps.specs.OneThread as history;
ghost use Rattle.up_stage.specs.Scheduled.{SameShape};
ghost use Rattle.up_stage.specs.Ready.{AtRest, Ready, rank_at, is_waiting, frames_asked};
ghost use Rattle.up_stage.specs.LeadsTo.{OneMore, FollowsOn, ActsOn, ResumesOn, PassesOn};
ghost use Rattle.up_stage.specs.Lines.{CatchesUp, DoesLine, GoesThrough};
ghost use Rattle.up_stage.specs.Played.{are_able, is_able_line};

use std::alloc::Global;
use std::marker::Model;
use up_model::Reply;
use up_num::Memory;
use up_script::{Action, Line, Script};
use up_steps::Hands;
use up_worker::{Actor, Heard, Wanted, Wish};

/// What carries out wishes for a script's actors, and the actors, in the middle of the script. The hands are given back at its end.
pub(crate) struct Scheduler<H: Hands> {
    hands: H,
    actors: Vec<Actor>,
    /// Up to which line the lines of each actor are begun.
    done: Vec<usize>,
}

impl<H: Hands> Model for Scheduler<H> {
    ghost use Rattle.up_stage.specs.Scheduled.{Scheduled};

    ghost Value = { Scheduled };

    ghost view = { λ scheduler. record { hands = H.shown scheduler.hands; actors = scheduler.actors.items; done = scheduler.done.items } };
}

impl<H: Hands> Scheduler<H> {
    /// A script's actors before the first line, beside these hands.
    pub(crate) fn new(hands: H, actors: Vec<Actor>, done: Vec<usize>) -> Scheduler<H>
        ensures { result ≡ record { hands = H.shown hands; actors = actors.items; done = done.items } }
    {
        Scheduler {
            hands,
            actors,
            done,
        }
    }

    /// Gives the hands back.
    pub(crate) fn end(self) -> H
        ensures { H.shown result ≡ self.hands }
    {
        let Scheduler {
            hands,
            actors: _,
            done: _,
        } = self;
        hands
    }

    /// Does all lines.
    pub(crate) fn all_lines(&mut self, alloc: Global, lines: &[Line]) -> Result<(), Memory>
        requires rest { AtRest self.old }
        requires sound { are_able (births_in self.old.hands.lives) (length self.old.actors) lines.now ≡ true }
        ensures { OnOk result (GoesThrough lines.now (length lines.now) self.old self.new) }
    {
        for at in 0..lines.len() {
            self.line(alloc, lines, at)?;
        }
        Ok(())
    }

    /// Does line `at` as far as its actor comes. A line of an actor that waits is put off.
    fn line(&mut self, alloc: Global, lines: &[Line], at: usize) -> Result<(), Memory>
        requires rest { AtRest self.old }
        requires sound { are_able (births_in self.old.hands.lives) (length self.old.actors) lines.now ≡ true }
        requires within { at < length lines.now }
        ensures { OnOk result (DoesLine lines.now at self.old self.new) }
    {
        let line = &lines[at];
        let parked = self.is_parked(line.actor);
        if is_go(&line.action) {
            if !parked {
                return Ok(());
            }
            self.resume(alloc, line.actor)?;
            return self.catch_up(alloc, lines, line.actor, at);
        }
        if parked {
            return Ok(());
        }
        self.act(alloc, line, at + 1)?;
        Ok(())
    }

    /// Does the lines of an actor that were put off, those before line `end`, until it waits.
    fn catch_up(
        &mut self,
        alloc: Global,
        lines: &[Line],
        who: u32,
        end: usize,
    ) -> Result<(), Memory>
        requires rest { AtRest self.old }
        requires known { who < length self.old.actors }
        requires sound { are_able (births_in self.old.hands.lives) (length self.old.actors) lines.now ≡ true }
        requires within { end ≤ length lines.now }
        ensures { OnOk result (CatchesUp lines.now who end self.old self.new) }
    {
        for at in self.done_to(who)..end {
            if self.is_parked(who) {
                return Ok(());
            }
            self.pass(alloc, &lines[at], who, at + 1)?;
        }
        Ok(())
    }

    /// Goes past a line, behind which stands line `next`, and does it where it is this actor's.
    fn pass(&mut self, alloc: Global, line: &Line, who: u32, next: usize) -> Result<(), Memory>
        requires rest { AtRest self.old }
        requires known { who < length self.old.actors }
        requires sound { is_able_line (births_in self.old.hands.lives) (length self.old.actors) line.now ≡ true }
        requires free { is_waiting self.old who ≡ false }
        ensures rest { OnOk result (AtRest self.new) }
        ensures shape { OnOk result (SameShape self.old self.new) }
        ensures done { OnOk result (self.new.done ≡ slice_set self.old.done who next) }
        ensures went { OnOk result (PassesOn self.old self.new who line.now) }
    {
        if line.actor == who && !is_go(&line.action) {
            return self.act(alloc, line, next);
        }
        self.done[who as usize] = next;
        Ok(())
    }

    /// Does a line of an actor that doesn't wait, as far as it comes. Line `next` stands behind it.
    fn act(&mut self, alloc: Global, line: &Line, next: usize) -> Result<(), Memory>
        requires rest { AtRest self.old }
        requires sound { is_able_line (births_in self.old.hands.lives) (length self.old.actors) line.now ≡ true }
        requires call { told.is_go line.now.action ≡ false }
        requires free { is_waiting self.old line.now.actor ≡ false }
        ensures rest { OnOk result (AtRest self.new) }
        ensures shape { OnOk result (SameShape self.old self.new) }
        ensures done { OnOk result (self.new.done ≡ slice_set self.old.done line.now.actor next) }
        ensures went { OnOk result (ActsOn self.old self.new line.now) }
    {
        let wish = self.actors[line.actor as usize].begin_line(alloc, line)?;
        self.done[line.actor as usize] = next;
        self.follow(alloc, line.actor, wish)
    }

    /// Tells an actor that waits to go on, and does what it wishes.
    fn resume(&mut self, alloc: Global, who: u32) -> Result<(), Memory>
        requires rest { AtRest self.old }
        requires known { who < length self.old.actors }
        requires waits { is_waiting self.old who ≡ true }
        ensures rest { OnOk result (AtRest self.new) }
        ensures shape { OnOk result (SameShape self.old self.new) }
        ensures done { OnOk result (self.new.done ≡ self.old.done) }
        ensures went { OnOk result (ResumesOn self.old self.new who) }
    {
        match self.actors[who as usize].next(alloc, Heard::Done) {
            Ok(wish) => self.follow(alloc, who, wish),
            Err((memory, _)) => Err(memory),
        }
    }

    /// Carries out what an actor wishes, until it waits or its line is done.
    fn follow(&mut self, alloc: Global, who: u32, first: Wish) -> Result<(), Memory>
        requires { Ready self.old who first }
        ensures rest { OnOk result (AtRest self.new) }
        ensures shape { OnOk result (SameShape self.old self.new) }
        ensures done { OnOk result (self.new.done ≡ self.old.done) }
        ensures went { OnOk result (FollowsOn self.old self.new who first) }
    {
        let mut wish = first;
        while !rests(&wish) {
            wish = self.carry_out(alloc, who, wish)?;
        }
        Ok(())
    }

    /// Carries out a wish, and gives the next one.
    fn carry_out(&mut self, alloc: Global, who: u32, wish: Wish) -> Result<Wish, Memory>
        requires ready { Ready self.old who wish }
        requires goes { history.rests wish ≡ false }
        ensures ready { IfOk result (λ next. Ready self.new who next) }
        ensures shape { OnOk result (SameShape self.old self.new) }
        ensures done { OnOk result (self.new.done ≡ self.old.done) }
        ensures lower { IfOk result (λ next. rank_at self.new who next < rank_at self.old who wish) }
        ensures went { IfOk result (λ next. OneMore self.old self.new who wish next) }
    {
        let heard = self.hands.carry_out(alloc, who, wish)?;
        let _ = frames_asked(&heard);
        match self.actors[who as usize].next(alloc, heard) {
            Ok(next) => Ok(next),
            Err((memory, _)) => Err(memory),
        }
    }

    /// Whether an actor waits to be told to go on.
    fn is_parked(&self, who: u32) -> bool
        requires { who < length self.now.actors }
        ensures { result ≡ is_waiting self.now who }
    {
        match self.actors[who as usize].wants() {
            Wanted::Done => true,
            _ => false,
        }
    }

    fn done_to(&self, who: u32) -> usize
        requires { who < length self.now.done }
        ensures { result ≡ slice_index self.now.done who }
    {
        self.done[who as usize]
    }
}

/// How many frames a reply asks for.
fn frames_asked(heard: &Heard) -> u32
    ensures value { result ≡ frames_asked heard.now }
    ensures small { result < 4294967296 }
{
    match heard {
        Heard::Replied(Reply::Needs(count)) => *count,
        _ => 0,
    }
}

/// Nothing is to be carried out: the actor waits, or its line is done.
fn rests(wish: &Wish) -> bool
    ensures { result ≡ history.rests wish.now }
{
    match wish {
        Wish::Park { .. } | Wish::LineEnd => true,
        _ => false,
    }
}

fn is_go(action: &Action) -> bool
    ensures { result ≡ told.is_go action.now }
{
    match action {
        Action::Go => true,
        _ => false,
    }
}
