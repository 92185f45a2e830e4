ghost use Rattle.std.specs.Prelude.{ℕ, Bool, List};
ghost use Rattle.std.specs.Borrow.{ftrue};
ghost use Rattle.up_model.specs.declared.entry.Entry.{Entry};
ghost use Rattle.up_turn.specs.Placing.{Placed};

use std::marker::Model;

/// What one seat knows of its turn. No value of it is made.
pub struct View {
    /// A list that stood behind the turn.
    pub ghost seen: { List Entry },
    /// What the two seats had seen that were last made one with this; both lists begin `seen`.
    pub ghost one: { List Entry },
    pub ghost other: { List Entry },
    /// Its own entries.
    pub ghost own: { List Placed },
    /// The numbers of the actors that it acts for.
    pub ghost numbers: { List ℕ },
    /// The first seat, or one that took it in.
    pub ghost first: { Bool },
    /// It has the value.
    pub ghost inside: { Bool },
    /// The counts that its looks at the front found, in order.
    pub ghost finds: { List ℕ },
}

impl Model for View {
    ghost also_owns = { λ _. ftrue };
}
