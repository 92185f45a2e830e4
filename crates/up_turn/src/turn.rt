ghost use Rattle.std.specs.Prelude.{◌≡◌, ℕ, ◌+◌, ◌<◌, ◌≤◌, ◌++◌, ◌∷◌, [], true, false, length, IfOk, IfErr, All, IsPermutation};
ghost use Rattle.std.specs.List.Sorted.{IsNonDecreasing};
ghost use Rattle.up_turn.specs.Placing.{placed, by, has, without, Begins, Tally};
ghost use Rattle.up_turn.specs.Standing.{first_pass, second_pass, Counts, GoesOn, came_out, joined, IsLast};

use crate::chronicle::Chronicle;
use crate::pass::{Held, Pass};
use crate::rule::Board;
use std::alloc::Global;
use std::marker::{Brand, Model};
use std::snapshot::Snapshot;
use std::sync::Wait;
use up_num::Memory;

/// A value behind a lock, whose word tells how many entries it has.
#[derive(Drop)]
pub struct Turn<S: Chronicle> {
    pub(crate) table: Board<S>,
}

impl<S: Chronicle> Model for Turn<S> {
    ghost use Rattle.std.specs.Prelude.{◌≡◌};
    ghost use Rattle.up_turn.specs.Standing.{TurnId, turn_code};

    ghost Value = { TurnId S };

    ghost coded = { turn_code S.code };

    ghost view = { λ turn. record {
      table = turn.table.shared.table_id;
      opening = turn.table.shared.key.opening.value;
      actors = turn.table.shared.key.actors;
    } };

    ghost invariant = { λ turn. (turn.table.shared.table_id.words ≡ 1) × (turn.table.shared.table_id.slots ≡ 1) };
}

impl<S: Chronicle> Turn<S> {
    /// A turn with this value, for the actors whose numbers are below `actors`, and its first pass, which holds all these.
    pub fn new(alloc: Global, state: S, actors: u32) -> Result<(Turn<S>, Pass<S>), (Memory, S)>
        requires empty { S.list state ≡ [] }
        ensures turn { IfOk result (λ made. (made.0.opening ≡ state) × (made.0.actors ≡ actors)) }
        ensures pass { IfOk result (λ made. made.1 ≡ first_pass made.0.table actors) }
        ensures state { IfErr result (λ failed. failed.1 ≡ state) }
    {
        let (table, place) = Turn::board(alloc, state, actors)?;
        Ok((Turn { table }, Pass { place }))
    }

    /// Waits until no pass is inside, and then takes the value. What the pass had seen tallied with its own entries, so a caller
    /// need not carry that along (`was`).
    pub fn enter<R: Wait>(&self, rt: &R, pass: &mut Pass<S>) -> Held<S>
        requires turn { pass.old.turn ≡ self.now.table }
        requires outside { pass.old.inside ≡ false }
        ensures turn { result.turn.value ≡ self.now }
        ensures origin { S.origin result.state ≡ S.origin self.now.opening }
        ensures later { Begins pass.old.seen (S.list result.state) }
        ensures pass { pass.new ≡ record pass.old { seen = S.list result.state; inside = true } }
        ensures was { Tally pass.old.numbers pass.old.own pass.old.seen }
        ensures own { Tally pass.new.numbers pass.new.own (S.list result.state) }
        ensures finds { All (λ n. n ≤ length (S.list result.state)) pass.old.finds }
    {
        let state = self.wait_in::<Brand, R>(rt, &mut pass.place);
        Held {
            state,
            turn: Snapshot::of(self),
        }
    }

    /// Puts the value back, which may have new entries by the numbers of the pass.
    pub fn leave(&self, pass: &mut Pass<S>, held: Held<S>)
        requires turn { pass.old.turn ≡ self.now.table }
        requires inside { pass.old.inside ≡ true }
        requires held { held.turn.value ≡ self.now }
        requires origin { S.origin held.state ≡ S.origin self.now.opening }
        requires goes_on { GoesOn pass.old.numbers pass.old.seen (S.list held.state) }
        ensures later { Begins pass.old.seen pass.new.seen }
        ensures pass { pass.new ≡ came_out pass.old (S.list held.state) }
        ensures own { Tally pass.new.numbers pass.new.own (S.list held.state) }
    {
        let Held { state, turn: _ } = held;
        self.put_back(&mut pass.place, state);
    }

    /// How many entries there are, by one load. It waits for nobody, and tells nothing of an entry that is not yet put back.
    pub fn front(&self, pass: &mut Pass<S>) -> u64
        requires turn { pass.old.turn ≡ self.now.table }
        ensures pass { pass.new ≡ record pass.old { finds = pass.old.finds ++ result ∷ [] } }
        ensures seen { length pass.old.seen ≤ result }
        ensures finds { All (λ n. n ≤ result) pass.old.finds }
        ensures rising { IsNonDecreasing pass.new.finds }
    {
        self.look(&mut pass.place)
    }

    /// A second pass, for another thread, which takes over a number by which there is no entry yet. A pass that isn't the
    /// first keeps a number.
    pub fn split(&self, pass: &mut Pass<S>, who: u32) -> Pass<S>
        requires turn { pass.old.turn ≡ self.now.table }
        requires holds { has pass.old.numbers who ≡ true }
        requires fresh { by who pass.old.own ≡ [] }
        requires counts { Counts pass.old.first (without who pass.old.numbers) }
        ensures pass { pass.new ≡ record pass.old { numbers = without who pass.old.numbers } }
        ensures second { result ≡ second_pass self.now.table pass.old.seen who }
    {
        let place = self.part::<Brand>(&mut pass.place, who);
        Pass { place }
    }

    /// Gives up a pass. The one that stays has seen what either has, and has both passes' numbers and own entries; its finds
    /// are its own.
    pub fn join(&self, pass: &mut Pass<S>, other: Pass<S>)
        requires turn { (pass.old.turn ≡ self.now.table) × (other.turn ≡ self.now.table) }
        requires outside { other.inside ≡ false }
        ensures pass { pass.new ≡ joined pass.old other }
        ensures seen { Begins pass.old.seen pass.new.seen × Begins other.seen pass.new.seen }
        ensures own { Tally pass.new.numbers pass.new.own pass.new.seen }
    {
        let Pass { place } = other;
        self.unite(&mut pass.place, place);
    }

    /// The value at the end, once all passes were joined into one.
    pub fn close(self, pass: Pass<S>) -> S
        requires turn { pass.turn ≡ self.table }
        requires outside { pass.inside ≡ false }
        requires last { IsLast self.actors pass }
        ensures origin { S.origin result ≡ S.origin self.opening }
        ensures list { S.list result ≡ pass.seen }
        ensures own { (n : ℕ) → by n pass.own ≡ by n (placed 0 (S.list result)) }
        ensures each_once { IsPermutation pass.own (placed 0 (S.list result)) }
    {
        let Turn { table } = self;
        let Pass { place } = pass;
        Turn::open(table, place)
    }
}
