ghost use Rattle.std.specs.Prelude.{◌≡◌, [], ◌∷◌, ◌-◌, ◌<◌, ◌≤◌, ◌^◌, length, OnOk, OnErr, reverse};

use crate::entry::{Entries, Entry};
use std::alloc::Global;
use std::marker::Model;
use up_num::{Items, Memory};

/// A journal that is being written. It gives no entry before its end; room for entries can be taken first, so
/// that writing one takes no memory. Contracts see it newest entry first.
#[derive(Debug, Drop)]
pub struct Log {
    items: Vec<Entry>,
    spare: u64,
}

impl Model for Log {
    ghost use Rattle.std.specs.Prelude.{◌+◌, ◌≤◌, reverse, vec_len};
    ghost use Rattle.std.specs.Vec.{vec_capacity};
    ghost use Rattle.up_model.specs.Written.{Written};

    ghost Value = { Written };

    ghost view = { λ log. record { entries = reverse log.items.items; spare = log.spare } };

    ghost invariant = { λ log. vec_len log.items + log.spare ≤ vec_capacity log.items };
}

impl Log {
    /// The empty journal. It takes no memory.
    pub fn new(alloc: Global) -> Self
        ensures { result ≡ record { entries = []; spare = 0 } }
    {
        Log {
            items: Vec::new(alloc),
            spare: 0,
        }
    }

    /// Makes room for so many entries more. It takes no memory where there is room already.
    pub fn room(&mut self, count: u32) -> Result<(), Memory>
        ensures entries { self.new.entries ≡ self.old.entries }
        ensures enough { OnOk result (count ≤ self.new.spare) }
        ensures no_less { self.old.spare ≤ self.new.spare }
        ensures needed { OnErr result (self.old.spare < count) }
        ensures same { OnErr result (self.new ≡ self.old) }
    {
        let wanted = u64::from(count);
        if wanted <= self.spare {
            return Ok(());
        }
        self.items.reserve(wanted as usize)?;
        self.spare = wanted;
        Ok(())
    }

    /// Appends an entry. It takes no memory.
    pub fn push(&mut self, entry: Entry)
        requires { 0 < self.old.spare }
        ensures { self.new ≡ record { entries = entry ∷ self.old.entries; spare = self.old.spare - 1 } }
    {
        self.items.push_reserved(entry);
        self.spare -= 1;
    }

    /// How many entries there are.
    pub fn count(&self) -> u64
        ensures value { result ≡ length self.now.entries }
        ensures small { result < 2 ^ 63 }
    {
        self.items.len() as u64
    }

    /// The journal, oldest entry first.
    pub fn end(self) -> Entries
        ensures { result ≡ reverse self.entries }
    {
        let Log { items, spare: _ } = self;
        Items::from_vec(items)
    }
}
