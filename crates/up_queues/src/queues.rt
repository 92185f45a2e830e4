ghost use Rattle.std.specs.Prelude.{◌≡◌, ℕ, ◌+◌, ◌<◌, ◌≤◌, ◌==◌, [], cond, length, filter, map, take, Some, None, IfOk, OnOk, OnErr};
ghost use Rattle.std.specs.Option.{option_map};
ghost use Rattle.up_queues.specs.Queue.{find_page, InOrder, is_due, chilled};

use crate::lists::{
    DueTest, Lists, empty_lists, has_item, push_due, put, set_item, stays_last, take,
};
use crate::queued::Queued;
use crate::seats::{Seat, key_of, seat_in, seat_out};
use std::alloc::{AllocError, Global};
use std::marker::Model;
use up_num::{Memory, PageNo, PageSeq};

/// The pages of an object that may be reclaimed, in the order in which they go.
#[derive(Debug, Drop)]
pub struct Queues {
    lists: Lists,
    seats: Vec<Seat>,
    room: usize,
}

impl Model for Queues {
    ghost use Rattle.std.specs.Prelude.{vec_capacity};
    ghost use Rattle.up_queues.specs.Queue.{Queue};
    ghost use Rattle.up_queues.specs.Lists.{items_in};
    ghost use Rattle.up_queues.specs.Seats.{AreQueues};

    ghost Value = { Queue };

    ghost view = { λ queues. record { items = items_in queues.lists; room = queues.room } };

    ghost invariant = { λ queues. AreQueues queues.lists queues.seats.items (vec_capacity queues.seats) queues.room };
}

impl Queues {
    /// Queues without a page. They take no memory.
    pub fn new(alloc: Global) -> Queues
        ensures { result.items ≡ [] }
    {
        Queues {
            lists: empty_lists(alloc),
            seats: Vec::new(alloc),
            room: 0,
        }
    }

    /// How many pages there are.
    pub fn len(&self) -> usize
        ensures value { result ≡ length self.now.items }
        ensures ordered { InOrder self.now.items }
    {
        self.seats.len()
    }

    /// Makes room for so many pages more.
    pub fn reserve(&mut self, pages: u32) -> Result<(), Memory>
        ensures enough { OnOk result (length self.new.items + pages ≤ self.new.room) }
        ensures items { self.new.items ≡ self.old.items }
        ensures room { self.old.room ≤ self.new.room }
        ensures same { OnErr result (self.new ≡ self.old) }
    {
        let pages = pages as usize;
        let Some(room) = self.seats.len().checked_add(pages) else {
            return Err(AllocError);
        };
        if room <= self.room {
            return Ok(());
        }
        self.lists.entries.reserve(pages)?;
        self.seats.reserve(pages)?;
        self.room = room;
        Ok(())
    }

    /// Gives a page the place of its last use, and of the hint that called it cold since, where there is one. A page
    /// that has this place is left alone; one that is new needs room.
    pub fn seat(&mut self, page: PageNo, generation: u64, place: u64, cold: Option<u64>)
        requires { find_page self.old.items page.0 ≡ None → length self.old.items < self.old.room }
        ensures pages { (p : ℕ) → find_page self.new.items p
            ≡ cond (page.0 == p) (Some record { page = page; generation = generation; place = place; cold = cold })
            (find_page self.old.items p) }
        ensures ordered { InOrder self.new.items }
        ensures room { self.new.room ≡ self.old.room }
    {
        let item = Queued {
            page,
            generation,
            place,
            cold,
        };
        if let Some(key) = key_of(&self.seats, page.0) {
            if has_item(&self.lists.entries, key, &item) {
                return;
            }
            if stays_last(&self.lists, key, &item) {
                set_item(&mut self.lists.entries, key, item);
                return;
            }
            let _ = take(&mut self.lists, key);
            let _ = put(&mut self.lists, item);
            return;
        }
        let key = put(&mut self.lists, item);
        seat_in(&mut self.seats, page.0, key);
    }

    /// Puts a page in by its last use, and not cold, or moves it there. A page that is new needs room.
    pub fn used(&mut self, page: PageNo, generation: u64, place: u64)
        requires { find_page self.old.items page.0 ≡ None → length self.old.items < self.old.room }
        ensures pages { (p : ℕ) → find_page self.new.items p
            ≡ cond (page.0 == p) (Some record { page = page; generation = generation; place = place; cold = None })
            (find_page self.old.items p) }
        ensures ordered { InOrder self.new.items }
        ensures room { self.new.room ≡ self.old.room }
    {
        self.seat(page, generation, place, None);
    }

    /// Moves a page behind those that were called cold before, and before all that weren't.
    pub fn cold(&mut self, page: PageNo, place: u64)
        ensures pages { (p : ℕ) → find_page self.new.items p ≡ cond (page.0 == p) (option_map (chilled place) (find_page self.old.items p)) (find_page self.old.items p) }
        ensures ordered { InOrder self.new.items }
        ensures room { self.new.room ≡ self.old.room }
    {
        let Some(key) = key_of(&self.seats, page.0) else {
            return;
        };
        let item = take(&mut self.lists, key);
        let cold = Some(place);
        let _ = put(&mut self.lists, Queued { cold, ..item });
    }

    /// Takes a page out. Its place is free again.
    pub fn drop_page(&mut self, page: PageNo)
        ensures pages { (p : ℕ) → find_page self.new.items p ≡ cond (page.0 == p) None (find_page self.old.items p) }
        ensures ordered { InOrder self.new.items }
        ensures room { self.new.room ≡ self.old.room }
    {
        let Some(key) = key_of(&self.seats, page.0) else {
            return;
        };
        let _ = take(&mut self.lists, key);
        seat_out(&mut self.seats, page.0);
    }

    /// The first `max` pages that are cold or at least `limit` generations older than the newest. An age of seven or more
    /// counts as seven, and that of a page whose generation is above the newest as none.
    pub fn oldest(
        &self,
        alloc: Global,
        newest: u64,
        limit: u32,
        max: u32,
    ) -> Result<PageSeq, Memory>
        ensures { IfOk result (λ pages. pages ≡ map (λ item. item.page) (take max (filter (is_due newest limit) self.now.items))) }
    {
        let wanted = DueTest {
            newest,
            limit,
            max: max as usize,
        };
        let mut pages = Vec::new(alloc);
        push_due(
            &self.lists.entries,
            self.lists.cold.first,
            wanted,
            &mut pages,
        )?;
        push_due(
            &self.lists.entries,
            self.lists.others.first,
            wanted,
            &mut pages,
        )?;
        Ok(PageSeq::from_vec(pages))
    }
}
