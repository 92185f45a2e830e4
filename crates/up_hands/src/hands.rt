ghost use Rattle.std.specs.Prelude.{◌≡◌, ◌+◌, ◌<◌, ◌≤◌, ◌^◌, true, length, map, min, replicate, slice_index, slice_set, IfOk, OnOk, OnErr, None};
ghost use Rattle.std.specs.List.{list_all};
ghost use Rattle.up_bank.specs.Standing.{BankId};
ghost use Rattle.up_bank.specs.declared.kind.FrameKind.TheVariants.{Ordinary as OrdinaryKind, Loaned as LoanedKind};
ghost use Rattle.up_clock.specs.Known.{last_age};
ghost use Rattle.up_worker.specs.declared.wish.Heard.TheVariants.{Done as DoneHeard};
ghost use Rattle.up_object.specs.Parts.{is_loan};
ghost use Rattle.up_worker.specs.declared.wish.Wish.TheVariants as wishes;
ghost use Rattle.up_steps.specs.Handed.{empty_hand, new_life, ends_of, is_fair, AllLegal};
ghost use Rattle.up_steps.specs.Carried.{is_done_here, object_of, hand_for, hand_after, IsProper, AsksForSome, DoesWish, SameShape};
ghost use Rattle.up_hands.specs.Keeping.{AllKept, Eased, Taken, at_home, counts_of};

use crate::machine::Machine;
use crate::relieving::relieve_for;
use core::mem::replace;
use std::alloc::Global;
use std::marker::Model;
use up_bank::FrameKind;
use up_claims::SiteReply;
use up_evictor::{Level, Levels};
use up_model::{Birth, Call, Entries};
use up_num::Memory;
use up_object::FramesIn;
use up_pages::Frames;
use up_worker::{Heard, Wish};

/// The objects of a script with all frames, and a clock. They hold frames, so they have to be ended.
pub struct Hands {
    machine: Machine,
    /// The loaned frames that each actor keeps.
    kept: Vec<Frames>,
    /// What was brought for the next call, and whether it is loaned.
    hand: FramesIn,
    lent: bool,
    frames: u32,
    loan: u32,
    levels: Levels,
}

impl Model for Hands {
    ghost use Rattle.up_object.specs.OneCall.{brought_of};
    ghost use Rattle.up_steps.specs.Handed.{Handed};
    ghost use Rattle.up_hands.specs.Keeping.{counts_of};
    ghost use Rattle.up_hands.specs.Standing.{HandsStand};

    ghost Value = { Handed };

    ghost view = { λ o. record {
      lives = o.machine.lives;
      frames = o.frames;
      loan = o.loan;
      kept = counts_of o.kept.items;
      ages = o.machine.ages;
      levels = o.levels;
      hand = record { brought = brought_of o.hand; lent = o.lent };
    } };

    ghost invariant = { HandsStand };
}

impl Hands {
    /// New objects with these births, and so many frames of each kind, all at home. No actor keeps any.
    pub fn new(
        alloc: Global,
        births: &[Birth],
        frames: u32,
        loan: u32,
        levels: Levels,
        actors: usize,
    ) -> Result<Hands, Memory>
        requires fair { list_all is_fair births.now ≡ true }
        requires few { length births.now < 2 ^ 32 }
        requires frames { (0 < frames) × (frames ≤ 16384) }
        requires loan { loan ≤ 4096 }
        ensures value { IfOk result (λ hands. hands ≡ record { lives = map new_life births.now; frames = frames; loan = loan; kept = replicate actors 0; ages = 0; levels = levels; hand = empty_hand }) }
        ensures legal { IfOk result (λ hands. AllLegal hands.lives) }
    {
        let machine = Machine::new(alloc, births, frames, loan)?;
        machine.is_legal();
        match empty_lists(alloc, actors) {
            Ok(kept) => Ok(Hands {
                machine,
                kept,
                hand: FramesIn::NoneYet,
                lent: false,
                frames,
                loan,
                levels,
            }),
            Err(memory) => {
                machine.let_go();
                Err(memory)
            }
        }
    }

    /// Ends all objects, and gives their journals, oldest entry first.
    pub fn end(self, alloc: Global) -> Result<Vec<Entries>, Memory>
        ensures journals { IfOk result (λ ended. ended.items ≡ ends_of self.lives) }
        ensures legal { AllLegal self.lives }
    {
        let Hands {
            mut machine,
            kept,
            hand,
            lent: _,
            frames: _,
            loan: _,
            levels: _,
        } = self;
        machine.has_both_kinds();
        machine.bring_home(hand.into_frames(alloc));
        bring_lists(&mut machine, kept);
        machine.end(alloc)
    }

    /// Carries out a wish that is no call.
    fn serve(&mut self, alloc: Global, who: u32, wish: Wish) -> Result<Heard, Memory>
        requires known { who < length self.old.kept }
        requires done_here { is_done_here wish ≡ true }
        requires no_call { object_of wish ≡ None }
        requires hand { self.old.hand ≡ empty_hand }
        requires some { AsksForSome wish }
        ensures done { DoesWish self.old self.new who wish result }
        ensures hand { IfOk result (λ heard. self.new.hand ≡ hand_after wish heard) }
        ensures shape { SameShape self.old self.new }
    {
        match wish {
            Wish::Gather(count) => self.gather(alloc, who, count),
            Wish::Loan => self.take_up(alloc, FrameKind::Loaned, 1),
            Wish::Keep => self.keep(who),
            Wish::Give => {
                self.give(alloc, who);
                Ok(Heard::Done)
            }
            Wish::Relieve(frames) => self.relieve(alloc, who, frames),
            Wish::Watch => self.watch(alloc, who),
            Wish::Age => {
                self.age();
                Ok(Heard::Done)
            }
            Wish::Park { .. } => Ok(Heard::Done),
            _ => unreachable!(),
        }
    }

    /// Makes a call with what is in hand.
    fn act(&mut self, alloc: Global, who: u32, object: u32, call: Call) -> Result<Heard, Memory>
        requires object { object < length self.old.lives }
        requires proper { IsProper self.old.lives who (wishes.Act object call) }
        requires hand { self.old.hand ≡ hand_for (wishes.Act object call) }
        ensures done { DoesWish self.old self.new who (wishes.Act object call) result }
        ensures hand { IfOk result (λ heard. self.new.hand ≡ hand_after (wishes.Act object call) heard) }
        ensures shape { SameShape self.old self.new }
    {
        let frames = replace(&mut self.hand, FramesIn::NoneYet);
        self.lent = false;
        let reply = self.machine.act(alloc, object, who, call, frames)?;
        Ok(Heard::Replied(reply))
    }

    /// Makes a resize.
    fn resize(&mut self, alloc: Global, who: u32, object: u32, pages: u32) -> Result<Heard, Memory>
        requires object { object < length self.old.lives }
        requires hand { self.old.hand ≡ empty_hand }
        ensures done { DoesWish self.old self.new who (wishes.Resize object pages) result }
        ensures hand { IfOk result (λ heard. self.new.hand ≡ hand_after (wishes.Resize object pages) heard) }
        ensures shape { SameShape self.old self.new }
    {
        let call = Call::Resize { pages };
        let none = FramesIn::NoneYet;
        let reply = self.machine.act(alloc, object, who, call, none)?;
        Ok(Heard::Site(SiteReply::Resized(reply)))
    }

    /// Brings so many ordinary frames, after a relief by those that aren't at home. Where there still are fewer a scan is brought.
    fn gather(&mut self, alloc: Global, who: u32, count: u32) -> Result<Heard, Memory>
        requires hand { self.old.hand ≡ empty_hand }
        requires some { 0 < count }
        ensures done { DoesWish self.old self.new who (wishes.Gather count) result }
        ensures hand { IfOk result (λ heard. self.new.hand ≡ hand_after (wishes.Gather count) heard) }
        ensures shape { SameShape self.old self.new }
    {
        let free = self.free();
        if free >= count {
            return self.take_up(alloc, FrameKind::Ordinary, count);
        }
        self.ease(alloc, who, count - free, Level::Empty)?;
        self.take_up(alloc, FrameKind::Ordinary, count)
    }

    /// How many ordinary frames are at home.
    fn free(&mut self) -> u32
        requires { self.old.hand ≡ empty_hand }
        ensures value { result ≡ at_home OrdinaryKind self.old }
        ensures same { self.new ≡ self.old }
    {
        self.machine.free()
    }

    /// Takes so many frames of a kind in hand, or a scan where fewer are at home.
    fn take_up(&mut self, alloc: Global, kind: FrameKind, count: u32) -> Result<Heard, Memory>
        requires hand { self.old.hand ≡ empty_hand }
        requires some { 0 < count }
        ensures taken { IfOk result (λ heard. Taken self.old self.new kind count heard) }
        ensures same { OnErr result (self.new ≡ self.old) }
    {
        self.machine.has_both_kinds();
        let frames = self.machine.gather(alloc, kind, count)?;
        let brought = frames.brought();
        replace(&mut self.hand, frames).into_frames(alloc).end();
        self.lent = is_loan(kind);
        Ok(Heard::Brought(brought))
    }

    /// Makes pages absent in the name of an actor.
    fn ease(&mut self, alloc: Global, who: u32, want: u32, level: Level) -> Result<(), Memory>
        ensures eased { OnOk result (Eased self.old self.new who want level) }
        ensures shape { SameShape self.old self.new }
        ensures hand { self.new.hand ≡ self.old.hand }
    {
        relieve_for(&mut self.machine, alloc, who, want, level)
    }

    /// An actor keeps all loaned frames that are at home.
    fn keep(&mut self, who: u32) -> Result<Heard, Memory>
        requires known { who < length self.old.kept }
        requires hand { self.old.hand ≡ empty_hand }
        ensures ok { OnOk result (self.new ≡ record self.old { kept = slice_set self.old.kept who (slice_index self.old.kept who + at_home LoanedKind self.old) }) }
        ensures done { IfOk result (λ heard. heard ≡ DoneHeard) }
        ensures same { OnErr result (self.new ≡ self.old) }
    {
        self.machine.has_both_kinds();
        self.machine.gather_all(&mut self.kept[who as usize])?;
        Ok(Heard::Done)
    }

    /// An actor gives the loaned frames back that it kept.
    fn give(&mut self, alloc: Global, who: u32)
        requires { who < length self.old.kept }
        ensures { self.new ≡ record self.old { kept = slice_set self.old.kept who 0 } }
    {
        self.machine.has_both_kinds();
        let frames = replace(&mut self.kept[who as usize], Frames::new(alloc));
        self.machine.bring_home(frames);
    }

    /// A relief by so many frames, as where none is free.
    fn relieve(&mut self, alloc: Global, who: u32, frames: u32) -> Result<Heard, Memory>
        requires hand { self.old.hand ≡ empty_hand }
        ensures done { DoesWish self.old self.new who (wishes.Relieve frames) result }
        ensures hand { IfOk result (λ heard. self.new.hand ≡ hand_after (wishes.Relieve frames) heard) }
        ensures shape { SameShape self.old self.new }
    {
        self.ease(alloc, who, frames, Level::Empty)?;
        Ok(Heard::Done)
    }

    /// A relief by what is missing, where memory is short.
    fn watch(&mut self, alloc: Global, who: u32) -> Result<Heard, Memory>
        requires hand { self.old.hand ≡ empty_hand }
        ensures done { DoesWish self.old self.new who wishes.Watch result }
        ensures hand { IfOk result (λ heard. self.new.hand ≡ hand_after wishes.Watch heard) }
        ensures shape { SameShape self.old self.new }
    {
        let free = self.free();
        let missing = self.levels.warn.saturating_sub(free);
        let level = self.levels.level(free);
        self.ease(alloc, who, missing, level)?;
        Ok(Heard::Done)
    }

    /// The clock ages.
    fn age(&mut self)
        ensures { self.new ≡ record self.old { ages = min (self.old.ages + 1) last_age } }
    {
        self.machine.age();
    }
}

impl up_steps::Hands for Hands {
    ghost shown = { λ hands. hands };

    fn carry_out(&mut self, alloc: Global, who: u32, wish: Wish) -> Result<Heard, Memory> {
        let heard = match wish {
            Wish::Act { object, call } => self.act(alloc, who, object, call),
            Wish::Resize { object, pages } => self.resize(alloc, who, object, pages),
            other => self.serve(alloc, who, other),
        };
        self.machine.is_legal();
        heard
    }
}

/// Whether these frames are loaned.
fn is_loan(kind: FrameKind) -> bool
    ensures { result ≡ is_loan kind }
{
    match kind {
        FrameKind::Ordinary => false,
        FrameKind::Loaned => true,
    }
}

/// So many empty lists of frames.
fn empty_lists(alloc: Global, count: usize) -> Result<Vec<Frames>, Memory>
    ensures counts { IfOk result (λ lists. counts_of lists.items ≡ replicate count 0) }
    ensures none { (bank : BankId) → IfOk result (λ lists. AllKept bank lists.items) }
{
    let mut lists = Vec::with_capacity(alloc, count)?;
    for _place in 0..count {
        lists.push_reserved(Frames::new(alloc));
    }
    Ok(lists)
}

/// Brings the frames of all lists home.
fn bring_lists(machine: &mut Machine, lists: Vec<Frames>)
    requires { AllKept machine.old.pool.loaned.bank lists.items }
    ensures { machine.new.lives ≡ machine.old.lives }
{
    machine.has_both_kinds();
    let mut rest = lists;
    while let Some(frames) = rest.pop() {
        machine.bring_home(frames);
    }
    rest.destroy_empty();
}
