ghost use Rattle.std.specs.Prelude.{◌≡◌, ℕ, ◌+◌, ◌<◌, ◌≤◌, ◌==◌, cond, length, vec_capacity, IfOk, OnOk};
ghost use Rattle.up_object.specs.Parts.{no_mark, mark_at};

use std::alloc::Global;
use std::marker::Model;
use up_num::Memory;

/// When a page was used last, as the place of an entry, its generation, and the place of the hint that called it cold since.
/// It is read of pages in frames alone.
#[derive(Clone, Copy, PartialEq, Eq, Debug)]
pub struct Key {
    pub used: u64,
    pub generation: u64,
    pub cold: Option<u64>,
}

/// A page's pins, whether it is protected, its use, and how many begins had a number when it was dirtied last, and when it was a
/// zero page last. The latter isn't kept while it is one.
#[derive(Clone, Copy, PartialEq, Eq, Debug)]
pub struct Mark {
    pub pins: u32,
    pub always: bool,
    pub key: Key,
    pub dirtied: u64,
    pub unzeroed: u64,
}

impl Mark {
    /// No pin, no hint, no use, no number.
    pub fn none() -> Mark
        ensures { result ≡ no_mark }
    {
        let key = Key {
            used: 0,
            generation: 0,
            cold: None,
        };
        Mark {
            pins: 0,
            always: false,
            key,
            dirtied: 0,
            unzeroed: 0,
        }
    }
}

/// The marks of an object's pages, by their numbers.
#[derive(Debug, Drop)]
pub struct Marks {
    items: Vec<Mark>,
}

impl Model for Marks {
    ghost use Rattle.std.specs.Prelude.{List};
    ghost use Rattle.up_object.specs.declared.marks.Mark.{Mark};

    ghost Value = { List Mark };

    ghost view = { λ marks. marks.items.items };
}

impl Marks {
    /// Marks of so many pages, all of them none.
    pub fn new(alloc: Global, pages: u32) -> Result<Marks, Memory>
        ensures size { IfOk result (λ marks. length marks ≡ pages) }
        ensures none { IfOk result (λ marks. (p : ℕ) → mark_at marks p ≡ no_mark) }
    {
        let mut items = Vec::with_capacity(alloc, pages as usize)?;
        for _place in 0..pages {
            items.push_reserved(Mark::none());
        }
        Ok(Marks { items })
    }

    /// Makes places for so many pages. New marks are none.
    pub fn grow(&mut self, pages: u32) -> Result<(), Memory>
        ensures size { OnOk result (pages ≤ length self.new) }
        ensures none { (p : ℕ) → mark_at self.new p ≡ mark_at self.old p }
        ensures longer { length self.old ≤ length self.new }
    {
        let count = self.items.len();
        let wanted = pages as usize;
        if wanted <= count {
            return Ok(());
        }
        self.items.reserve(wanted - count)?;
        add_none(&mut self.items, wanted - count);
        Ok(())
    }

    /// The mark of a page of any number.
    pub fn at(&self, page: u32) -> Mark
        ensures { result ≡ mark_at self.now page }
    {
        let place = page as usize;
        if self.items.len() <= place {
            return Mark::none();
        }
        self.items[place]
    }

    pub fn set(&mut self, page: u32, mark: Mark)
        requires { page < length self.old }
        ensures pages { (p : ℕ) → mark_at self.new p ≡ cond (page == p) mark (mark_at self.old p) }
        ensures size { length self.new ≡ length self.old }
    {
        self.items[page as usize] = mark;
    }
}

/// Appends marks that are none, for which there is room.
fn add_none(items: &mut Vec<Mark>, more: usize)
    requires { length items.old.items + more ≤ vec_capacity items.old }
    ensures size { length items.new.items ≡ length items.old.items + more }
    ensures none { (p : ℕ) → mark_at items.new.items p ≡ mark_at items.old.items p }
{
    for _place in 0..more {
        items.push_reserved(Mark::none());
    }
}
