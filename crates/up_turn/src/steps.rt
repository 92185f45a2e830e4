//! The steps of a turn's calls on its table, by seats of the table.
ghost use Rattle.std.specs.Prelude.{◌≡◌, ℕ, ◌+◌, ◌%◌, ◌/◌, ◌<◌, ◌∷◌, [], true, false, IfOk, IfErr, MatchOption, IsPermutation, None};
ghost use Rattle.up_turn.specs.Placing.{placed, by, has, without, Begins, Tally};
ghost use Rattle.up_turn.specs.Standing.{Counts, GoesOn};
ghost use Rattle.up_turn.specs.Turned.{newcomer};
ghost use Rattle.up_turn.specs.SeatSteps.{found, lacks, only, united, gone_out, Counted, InHand};

use crate::chronicle::Chronicle;
use crate::rule::{Agree, Board, Enter, Front, Kin, Leave, Part, Place, Terms, Unite, Who};
use crate::turn::Turn;
use atomic_table::{Refused, Table};
use std::alloc::{AllocError, AllocFailed, Global};
use std::snapshot::Snapshot;
use std::sync::Wait;
use up_num::Memory;

// One slot, with the value.
fn one_slot<S>(alloc: Global, state: S) -> Result<Vec<Option<S>>, (Memory, S)>
    ensures ok { IfOk result (λ slots. slots.items ≡ Some state ∷ []) }
    ensures err { IfErr result (λ failed. failed.1 ≡ state) }
{
    let mut slots = Vec::new(alloc);
    if let Err(AllocFailed { value }) = slots.push(Some(state)) {
        slots.destroy_empty();
        return Err((AllocError, value.unwrap()));
    }
    Ok(slots)
}

// The value back out of its slot.
fn only_value<S>(mut slots: Vec<Option<S>>) -> S
    requires { (value : S) × (slots.items ≡ Some value ∷ []) }
    ensures { slots.items ≡ Some result ∷ [] }
{
    let value = slots.pop().unwrap().unwrap();
    slots.destroy_empty();
    value
}

impl<S: Chronicle> Turn<S> {
    // The table of a new turn.
    pub(crate) fn board(
        alloc: Global,
        state: S,
        actors: u32,
    ) -> Result<(Board<S>, Place<S>), (Memory, S)>
        requires { S.list state ≡ [] }
        ensures key { IfOk result (λ made. (made.0.shared.key.opening.value ≡ state) × (made.0.shared.key.actors ≡ actors)) }
        ensures counts { IfOk result (λ made. (made.0.shared.table_id.words ≡ 1) × (made.0.shared.table_id.slots ≡ 1)) }
        ensures place { IfOk result (λ made. (made.1.table_id ≡ made.0.shared.table_id) × (made.1.me ≡ (newcomer actors, []))) }
        ensures state { IfErr result (λ failed. failed.1 ≡ state) }
    {
        let terms = Terms {
            opening: Snapshot::of(&state),
            actors,
        };
        let slots = one_slot(alloc, state)?;
        match Table::new(alloc, &[0], slots, &terms) {
            Ok(made) => Ok(made),
            Err(Refused { slots }) => Err((AllocError, only_value(slots))),
        }
    }

    // Takes the value, where the word still is this one, which says that no pass is inside.
    fn try_enter<J: Kin<S>>(&self, place: &mut Place<S>, word: u64) -> Option<S>
        requires turn { place.old.table_id ≡ self.now.table }
        requires free { word % 2 ≡ 0 }
        requires outside { place.old.me.1 ≡ [] }
        requires counts { Counts place.old.me.0.first place.old.me.0.numbers }
        requires kin { (x : S) → S.origin x ≡ S.origin self.now.opening → J.kin x }
        ensures turn { place.new.table_id ≡ place.old.table_id }
        ensures got { MatchOption result (place.new.me ≡ place.old.me) (λ state. J.kin state × InHand S.list place.old.me.0 place.new.me state) }
    {
        let found = self
            .table
            .shared
            .compare_exchange::<Enter<J>>(place, 0, word, word + 1);
        if found != word {
            return None;
        }
        self.table.shared.exchange(place, 0, None)
    }

    // Waits until no pass is inside, and takes the value.
    pub(crate) fn wait_in<J: Kin<S>, R: Wait>(&self, rt: &R, place: &mut Place<S>) -> S
        requires turn { place.old.table_id ≡ self.now.table }
        requires outside { place.old.me.1 ≡ [] }
        requires counts { Counts place.old.me.0.first place.old.me.0.numbers }
        requires kin { (x : S) → S.origin x ≡ S.origin self.now.opening → J.kin x }
        ensures turn { place.new.table_id ≡ place.old.table_id }
        ensures kin { J.kin result }
        ensures got { InHand S.list place.old.me.0 place.new.me result }
    {
        for _ in rt.forever() {
            let word = self.table.shared.peek(0);
            if word % 2 == 0 {
                if let Some(state) = self.try_enter::<J>(place, word) {
                    return state;
                }
            } else {
                self.table.shared.park(rt, 0, (word % (1 << 32)) as u32);
            }
        }
        unreachable!()
    }

    // Puts the value back into its slot, publishes the new count, and wakes one that waits.
    pub(crate) fn put_back(&self, place: &mut Place<S>, state: S)
        requires turn { place.old.table_id ≡ self.now.table }
        requires inside { (place.old.me.0.inside ≡ true) × (place.old.me.1 ≡ (0, None) ∷ []) }
        requires origin { S.origin state ≡ S.origin self.now.opening }
        requires goes_on { GoesOn place.old.me.0.numbers place.old.me.0.seen (S.list state) }
        ensures turn { place.new.table_id ≡ place.old.table_id }
        ensures out { place.new.me ≡ (gone_out place.old.me.0 (S.list state), []) }
        ensures own { Tally place.new.me.0.numbers place.new.me.0.own (S.list state) }
    {
        let count = state.count();
        let slot = self.table.shared.exchange(place, 0, Some(state));
        let None = slot else { unreachable!() };
        self.table.shared.swap::<Leave>(place, 0, count * 2);
        self.table.shared.wake_one(0);
    }

    // The count, by one load.
    pub(crate) fn look(&self, place: &mut Place<S>) -> u64
        requires { place.old.table_id ≡ self.now.table }
        ensures turn { place.new.table_id ≡ place.old.table_id }
        ensures found { place.new.me ≡ (found place.old.me.0 result, place.old.me.1) }
        ensures counted { Counted place.old.me.0 result }
    {
        self.table.shared.load::<Front>(place, 0) / 2
    }

    // A second seat, which takes over a number.
    pub(crate) fn part<J: Who>(&self, place: &mut Place<S>, who: u32) -> Place<S>
        requires turn { place.old.table_id ≡ self.now.table }
        requires who { J.who ≡ who }
        requires holds { has place.old.me.0.numbers who ≡ true }
        requires fresh { by who place.old.me.0.own ≡ [] }
        requires counts { Counts place.old.me.0.first (without who place.old.me.0.numbers) }
        ensures turn { place.new.table_id ≡ place.old.table_id }
        ensures left { place.new.me ≡ (lacks who place.old.me.0, place.old.me.1) }
        ensures second { (result.table_id ≡ place.old.table_id) × (result.me ≡ (only who place.old.me.0, [])) }
    {
        let _ = who;
        self.table.shared.split_seat::<Part<J>>(place)
    }

    // Takes in another seat, and looks what that makes of it.
    pub(crate) fn unite(&self, place: &mut Place<S>, other: Place<S>)
        requires turn { (place.old.table_id ≡ self.now.table) × (other.table_id ≡ self.now.table) }
        requires outside { (other.me.0.inside ≡ false) × (other.me.1 ≡ []) }
        ensures turn { place.new.table_id ≡ place.old.table_id }
        ensures both { place.new.me ≡ (united place.old.me.0 other.me.0, place.old.me.1) }
        ensures seen { Begins place.old.me.0.seen place.new.me.0.seen × Begins other.me.0.seen place.new.me.0.seen }
        ensures own { Tally place.new.me.0.numbers place.new.me.0.own place.new.me.0.seen }
    {
        self.table.shared.join_seat::<Unite>(place, other);
        self.table.shared.load::<Agree>(place, 0);
    }

    // The value at the end.
    pub(crate) fn open(table: Board<S>, place: Place<S>) -> S
        requires turn { place.table_id ≡ table.shared.table_id }
        requires counts { (table.shared.table_id.words ≡ 1) × (table.shared.table_id.slots ≡ 1) }
        requires outside { place.me.0.inside ≡ false }
        requires first { place.me.0.first ≡ true }
        requires all { (n : ℕ) → n < table.shared.key.actors → has place.me.0.numbers n ≡ true }
        ensures origin { S.origin result ≡ S.origin table.shared.key.opening.value }
        ensures list { S.list result ≡ place.me.0.seen }
        ensures own { (n : ℕ) → by n place.me.0.own ≡ by n (placed 0 (S.list result)) }
        ensures each_once { IsPermutation place.me.0.own (placed 0 (S.list result)) }
    {
        let mut closed = table.close_with(place);
        let slot = closed.take(0);
        closed.free();
        slot.unwrap()
    }
}
