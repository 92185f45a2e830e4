ghost use Rattle.std.specs.Prelude.{◌≡◌, ◌<◌, ◌↔◌, [], ◌∷◌, ◌++◌, length, slice_get, true, Some, IfErr, IsTrue, OnErr, OnOk};
ghost use Rattle.up_text.specs.Versions.{has_numbers as numbers_in, is_version};

use crate::journals::Named;
use std::alloc::Global;
use std::marker::Model;
use up_num::{Items, Memory};

/// The journals of some objects, in order, and the version of their text, which is 1 or 2.
#[derive(Drop)]
pub struct Journals {
    version: u32,
    list: Items<Named>,
}

impl Model for Journals {
    ghost use Rattle.std.specs.Prelude.{◌≡◌, true};
    ghost use Rattle.up_text.specs.Versions.{Versioned, is_version};

    ghost Value = { Versioned };

    ghost view = { λ journals. record { version = journals.version; list = journals.list } };

    ghost invariant = { λ journals. is_version journals.version ≡ true };
}

impl Journals {
    /// No journals, with a text of this version. It takes no memory.
    pub fn new(alloc: Global, version: u32) -> Self
        requires { is_version version ≡ true }
        ensures { result ≡ record { version = version; list = [] } }
    {
        Journals {
            version,
            list: Items::new(alloc),
        }
    }

    /// The version of their text.
    pub fn version(&self) -> u32
        ensures value { result ≡ self.now.version }
        ensures known { is_version self.now.version ≡ true }
    {
        self.version
    }

    /// Their text says of each whether it is numbered, and has numbers of begins.
    pub fn has_numbers(&self) -> bool
        ensures { result ≡ numbers_in self.now.version }
    {
        self.version == 2
    }

    pub fn as_slice(&self) -> &[Named]
        ensures { result.now ≡ self.now.list }
    {
        self.list.as_slice()
    }

    pub fn len(&self) -> usize
        ensures { result ≡ length self.now.list }
    {
        self.list.len()
    }

    pub fn is_empty(&self) -> bool
        ensures { IsTrue result ↔ (self.now.list ≡ []) }
    {
        self.list.is_empty()
    }

    pub fn at(&self, place: usize) -> &Named
        requires { place < length self.now.list }
        ensures { slice_get self.now.list place ≡ Some result.now }
    {
        self.list.at(place)
    }

    /// Appends a journal. After want of memory the journal comes back.
    pub fn push(&mut self, journal: Named) -> Result<(), (Memory, Named)>
        ensures ok { OnOk result (self.new ≡ record self.old { list = self.old.list ++ journal ∷ [] }) }
        ensures same { OnErr result (self.new ≡ self.old) }
        ensures back { IfErr result (λ failed. failed.1 ≡ journal) }
    {
        self.list.push(journal)
    }
}
