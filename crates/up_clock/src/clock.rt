ghost use Rattle.std.specs.Prelude.{◌≡◌, ◌+◌, ◌≤◌, ◌++◌, ◌∷◌, [], false, IsTrue, IfOk, min, max};
ghost use Rattle.std.specs.List.Sorted.{IsNonDecreasing};
ghost use Rattle.up_clock.specs.Known.{first_seat, second_seat, last_age, Aged};

use crate::Memory;
use crate::rule::{Age, Begin, Look, Share, Ticking, Unite};
use crate::view::View;
use atomic_table::{Seat, Table};
use std::alloc::Global;
use std::marker::Model;

/// A number from 0 to 2^64 - 1 that threads share. It starts at 0 and never falls.
#[derive(Drop)]
pub struct Clock {
    table: Table<(), View, (), Ticking, Global>,
}

impl Model for Clock {
    ghost use Rattle.std.specs.Prelude.{◌≡◌};
    ghost use Rattle.atomic_table.specs.Seated.{TableId, table_id_coded};

    ghost Value = { TableId };

    ghost coded = { table_id_coded };

    ghost view = { λ clock. clock.table.shared.table_id };

    ghost invariant = { λ clock. clock.table.shared.table_id.words ≡ 1 };
}

/// What a thread calls a clock with. It takes no bytes.
#[derive(Drop)]
pub struct ClockSeat {
    seat: Seat<(), View>,
}

impl Model for ClockSeat {
    ghost use Rattle.std.specs.Prelude.{◌≡◌, []};
    ghost use Rattle.up_clock.specs.Known.{Known, known_code};

    ghost Value = { Known };

    ghost coded = { known_code };

    ghost view = { λ place. record {
      clock = place.seat.table_id;
      sole = place.seat.me.0.sole;
      told = place.seat.me.0.told;
      ages = place.seat.me.0.ages;
      finds = place.seat.me.0.finds;
    } };

    ghost invariant = { λ place. place.seat.me.1 ≡ [] };
}

impl Clock {
    /// A clock that shows 0, and its first seat.
    pub fn new(alloc: Global) -> Result<(Clock, ClockSeat), Memory>
        ensures { IfOk result (λ made. made.1 ≡ first_seat made.0) }
    {
        let (table, seat) = Table::of_words(alloc, &[0], &())?;
        Ok((Clock { table }, ClockSeat { seat }))
    }

    /// What the clock shows, by one load.
    pub fn now(&self, seat: &mut ClockSeat) -> u64
        requires { seat.old.clock ≡ self.now }
        ensures seat { seat.new ≡ record seat.old { told = result; finds = seat.old.finds ++ result ∷ [] } }
        ensures told { seat.old.told ≤ result }
        ensures rising { IsNonDecreasing seat.new.finds }
        ensures alone { IsTrue seat.old.sole → result ≡ min seat.old.ages last_age }
    {
        self.table.shared.load::<Look>(&mut seat.seat, 0)
    }

    /// Makes the clock show at least one more than it finds, and answers that number. Two calls at once may
    /// count as one. At 2^64 - 1 the clock stays.
    pub fn age(&self, seat: &mut ClockSeat) -> u64
        requires { seat.old.clock ≡ self.now }
        ensures seat { seat.new ≡ record seat.old { told = result; ages = seat.old.ages + 1; finds = seat.new.finds } }
        ensures told { seat.old.told ≤ result }
        ensures finds { Aged seat.old.finds seat.new.finds result }
        ensures rising { IsNonDecreasing seat.new.finds }
        ensures alone { IsTrue seat.old.sole → result ≡ min seat.new.ages last_age }
    {
        let found = self.table.shared.load::<Begin>(&mut seat.seat, 0);
        if found == u64::MAX {
            return found;
        }
        let answer = found + 1;
        self.table
            .shared
            .fetch_max::<Age>(&mut seat.seat, 0, answer);
        answer
    }

    /// A second seat, for another thread. It has no finds, and was told what this one was.
    pub fn split(&self, seat: &mut ClockSeat) -> ClockSeat
        requires { seat.old.clock ≡ self.now }
        ensures seat { seat.new ≡ record seat.old { sole = false } }
        ensures second { result ≡ second_seat self.now seat.old.told }
    {
        let second = self.table.shared.split_seat::<Share>(&mut seat.seat);
        ClockSeat { seat: second }
    }

    /// Gives up a seat. The one that stays keeps its own finds and ages.
    pub fn join(&self, seat: &mut ClockSeat, other: ClockSeat)
        requires seat { seat.old.clock ≡ self.now }
        requires other { other.clock ≡ self.now }
        ensures { seat.new ≡ record seat.old { sole = false; told = max seat.old.told other.told } }
    {
        let ClockSeat { seat: given } = other;
        self.table.shared.join_seat::<Unite>(&mut seat.seat, given);
    }
}
