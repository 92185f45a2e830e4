//! The rule of a turn's table, and what each kind of step on it tells.
//! The one word is twice the count of entries, and 1 more while a pass is inside. The one slot has the value while none is.
ghost use Rattle.up_turn.specs.SeatSteps.{fronted, agreed, entered, left, lacks, only, united, spent};

use crate::chronicle::Chronicle;
use crate::view::View;
use atomic_table::{Join, Play, Seat, Split, Table, TableRule};
use std::alloc::Global;
use std::marker::{Brand, PhantomData};
use std::snapshot::Snapshot;

/// What a turn is told when it is made.
#[derive(Drop)]
pub struct Terms<S> {
    pub opening: Snapshot<S>,
    pub actors: u32,
}

pub struct Turning;

impl<S: Chronicle> TableRule<Option<S>, View, Terms<S>> for Turning {
    ghost use Rattle.std.specs.Prelude.{◌≡◌};
    ghost use Rattle.up_turn.specs.Turned.{Turned, newcomer};

    ghost holds = { λ terms. Turned (λ x. S.origin x ≡ S.origin terms.opening.value) S.list terms.actors };

    ghost first = { λ terms. newcomer terms.actors };
}

pub type Board<S> = Table<Option<S>, View, Terms<S>, Turning, Global>;

pub type Place<S> = Seat<Option<S>, View>;

/// The values of a turn's origin. The call picks which.
pub trait Kin<S> {
    ghost kin: { S → Type 0 };
}

impl<S> Kin<S> for Brand {
    ghost kin = { λ _. Unit {0} };
}

/// An actor's number. The call picks which.
pub trait Who {
    ghost use Rattle.std.specs.Prelude.{ℕ};

    ghost who: { ℕ };
}

impl Who for Brand {
    ghost who = { 0 };
}

/// A load of the count.
pub struct Front;

impl<S> Play<Option<S>, View> for Front {
    ghost then = { fronted };
}

/// A load after a join.
pub struct Agree;

impl<S> Play<Option<S>, View> for Agree {
    ghost then = { agreed };
}

/// A pass is let in where none is inside, and takes the slot.
pub struct Enter<J> {
    kin: PhantomData<J>,
}

impl<S: Chronicle, J: Kin<S>> Play<Option<S>, View> for Enter<J> {
    ghost then = { entered J.kin S.list };
}

/// The new count is published, and the slot given back.
pub struct Leave;

impl<S: Chronicle> Play<Option<S>, View> for Leave {
    ghost then = { left S.list };
}

/// A second pass is made, which takes over a number.
pub struct Part<J> {
    who: PhantomData<J>,
}

impl<J: Who> Split<View> for Part<J> {
    ghost left = { lacks J.who };

    ghost right = { only J.who };
}

/// A pass is given up, and another knows and holds what it did.
pub struct Unite;

impl Join<View> for Unite {
    ghost both = { united };

    ghost spent = { spent };
}
