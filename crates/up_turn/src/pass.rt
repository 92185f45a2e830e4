use crate::chronicle::Chronicle;
use crate::rule::Place;
use crate::turn::Turn;
use std::marker::Model;
use std::snapshot::Snapshot;

/// What a thread calls a turn with. It takes no bytes.
#[derive(Drop)]
pub struct Pass<S> {
    pub(crate) place: Place<S>,
}

impl<S> Model for Pass<S> {
    ghost use Rattle.std.specs.Prelude.{◌≡◌, true, false, [], ◌∷◌, None};
    ghost use Rattle.up_turn.specs.Standing.{Standing, Counts};

    ghost Value = { Standing };

    ghost view = { λ pass. record {
      turn = pass.place.table_id;
      seen = pass.place.me.0.seen;
      own = pass.place.me.0.own;
      numbers = pass.place.me.0.numbers;
      first = pass.place.me.0.first;
      inside = pass.place.me.0.inside;
      finds = pass.place.me.0.finds;
    } };

    ghost invariant = { λ pass. (pass.place.me.0.inside ≡ true → pass.place.me.1 ≡ (0, None) ∷ []) × (pass.place.me.0.inside ≡ false → pass.place.me.1 ≡ []) × Counts pass.place.me.0.first pass.place.me.0.numbers };
}

/// The value, out of its turn. It has to be put back by `leave`.
pub struct Held<S: Chronicle> {
    pub state: S,
    pub(crate) turn: Snapshot<Turn<S>>,
}
