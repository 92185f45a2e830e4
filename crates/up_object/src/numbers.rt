ghost use Rattle.std.specs.Prelude.{◌≡◌, ◌≤◌, [], ◌++◌, length, option_to_list, slice_get, OnOk};
ghost use Rattle.up_object.specs.Numbers.{begin_by, begin_in};

use std::alloc::Global;
use std::marker::Model;
use up_model::{Call, Entry, Reply};
use up_num::{Memory, PageRange};

/// What a begin is for: the pages of its range, or the zero pages among them alone.
#[derive(Clone, Copy, PartialEq, Eq, Debug)]
pub struct Begin {
    pub range: PageRange,
    pub only_zero: bool,
}

/// The begins that got numbers, oldest first: that of number n is at place n. Room for one more can be taken first, so that
/// adding it takes no memory. It takes none for an object whose begins get no numbers.
#[derive(Debug, Drop)]
pub struct Numbers {
    items: Vec<Begin>,
    spare: usize,
}

impl Model for Numbers {
    ghost use Rattle.std.specs.Prelude.{◌+◌, ◌≤◌, vec_len};
    ghost use Rattle.std.specs.Vec.{vec_capacity};
    ghost use Rattle.up_object.specs.Numbers.{Numbered};

    ghost Value = { Numbered };

    ghost view = { λ numbers. record { begins = numbers.items.items; spare = numbers.spare } };

    ghost invariant = { λ numbers. vec_len numbers.items + numbers.spare ≤ vec_capacity numbers.items };
}

impl Numbers {
    /// No begins. It takes no memory.
    pub fn new(alloc: Global) -> Numbers
        ensures { result ≡ record { begins = []; spare = 0 } }
    {
        Numbers {
            items: Vec::new(alloc),
            spare: 0,
        }
    }

    /// Makes room for the begin of an entry, where it has one.
    pub fn make_room(&mut self, entry: &Entry) -> Result<(), Memory>
        ensures begins { self.new.begins ≡ self.old.begins }
        ensures enough { OnOk result (length (option_to_list (begin_in entry.now)) ≤ self.new.spare) }
    {
        if begin_of(entry).is_some() && self.spare == 0 {
            self.items.reserve(1)?;
            self.spare = 1;
        }
        Ok(())
    }

    /// Adds the begin of an entry, where it has one. It takes no memory.
    pub fn add(&mut self, entry: &Entry)
        requires { length (option_to_list (begin_in entry.now)) ≤ self.old.spare }
        ensures { self.new.begins ≡ self.old.begins ++ option_to_list (begin_in entry.now) }
    {
        if let Some(begin) = begin_of(entry) {
            self.items.push_reserved(begin);
            self.spare -= 1;
        }
    }

    /// How many begins got a number, which is the next one.
    pub fn count(&self) -> u64
        ensures { result ≡ length self.now.begins }
    {
        self.items.len() as u64
    }

    /// The begin of this number.
    pub fn get(&self, number: u64) -> Option<Begin>
        ensures { result ≡ slice_get self.now.begins number }
    {
        let place = number as usize;
        if self.items.len() <= place {
            return None;
        }
        Some(self.items[place])
    }
}

/// The begin that an entry gives a number.
fn begin_of(entry: &Entry) -> Option<Begin>
    ensures { result ≡ begin_in entry.now }
{
    match &entry.call {
        Call::Begin { range, zero } => begin_with(&entry.reply, *range, *zero),
        _ => None,
    }
}

fn begin_with(reply: &Reply, range: PageRange, only_zero: bool) -> Option<Begin>
    ensures { result ≡ begin_by range only_zero reply.now }
{
    match reply {
        Reply::Began(_) => Some(Begin { range, only_zero }),
        _ => None,
    }
}
