ghost use Rattle.std.specs.Prelude.{◌≡◌, ℕ, ◌<◌, ◌≤◌, true, length, is_some, Some, None, MatchOption, IfSome, IfOk, IfErr, OnOk, OnErr};
ghost use Rattle.up_num.specs.Span.{covers};
ghost use Rattle.up_claims.specs.Slots.{range_of, has_page, NoneHas, FindsPage, OnlyChanges, Disjoint};
ghost use Rattle.up_claims.specs.Slots.{IsClaimed, IsInTheWay, in_way, earlier, FoundBefore};

use crate::step::ClaimNo;
use std::alloc::Global;
use std::marker::Model;
use up_num::{Memory, PageNo, PageRange};

/// Ranges of pages that are claimed, each under a number. Contracts see them as a list: the range at a place is
/// the claim of that number, where there is one.
#[derive(Debug, Drop)]
pub struct Claims {
    slots: Vec<Option<PageRange>>,
}

impl Model for Claims {
    ghost use Rattle.std.specs.Prelude.{List, Option};
    ghost use Rattle.up_num.specs.Span.{Span};

    ghost Value = { List (Option Span) };

    ghost use Rattle.up_claims.specs.Slots.{Disjoint};

    ghost view = { λ seen. seen.slots.items };

    ghost invariant = { λ seen. Disjoint seen.slots.items };
}

// The claim of a number.
fn slot_at(slots: &Vec<Option<PageRange>>, place: usize) -> Option<PageRange>
    requires within { place < length slots.now.items }
    ensures { range_of slots.now.items place ≡ result }
{
    slots[place]
}

// A claim at a place that overlaps a range, and where it begins.
#[derive(Clone, Copy, PartialEq, Eq, Debug)]
pub(crate) struct Found {
    place: usize,
    first: u32,
}

fn covers(range: PageRange, page: u32) -> bool
    ensures { result ≡ covers range page }
{
    range.first <= page && page < range.first + range.count
}

fn has_page(slot: Option<PageRange>, page: u32) -> bool
    ensures { result ≡ has_page slot page }
{
    match slot {
        None => false,
        Some(range) => covers(range, page),
    }
}

// Where a claim begins that overlaps the range.
fn in_way(range: PageRange, slot: Option<PageRange>) -> Option<u32>
    ensures { result ≡ in_way range slot }
{
    let held = slot?;
    if covers(held, range.first) || covers(range, held.first) {
        Some(held.first)
    } else {
        None
    }
}

fn earlier(found: Option<Found>, place: usize, first: Option<u32>) -> Option<Found>
    ensures { result ≡ earlier found place first }
{
    let Some(first) = first else { return found };
    let next = Found { place, first };
    match found {
        None => Some(next),
        Some(found) => Some(if first < found.first { next } else { found }),
    }
}

// The claim of least first page that overlaps the range.
fn first_in_way(slots: &Vec<Option<PageRange>>, range: PageRange) -> Option<Found>
    ensures { FoundBefore slots.now.items range (length slots.now.items) result }
{
    let mut found = None;
    let mut place = 0;
    while place < slots.len() {
        found = earlier(found, place, in_way(range, slot_at(slots, place)));
        place += 1;
    }
    found
}

// The number of the claim that has a page.
fn place_with(slots: &Vec<Option<PageRange>>, page: u32) -> Option<usize>
    ensures within { IfSome result (λ place. place < length slots.now.items) }
    ensures finds { FindsPage slots.now.items page result }
{
    let mut place = 0;
    while place < slots.len() {
        if has_page(slot_at(slots, place), page) {
            return Some(place);
        }
        place += 1;
    }
    None
}

// A number that no claim has.
fn free_place(slots: &Vec<Option<PageRange>>) -> usize
    ensures within { result ≤ length slots.now.items }
    ensures free { range_of slots.now.items result ≡ None }
{
    let mut place = 0;
    while place < slots.len() && slot_at(slots, place).is_some() {
        place += 1;
    }
    place
}

fn put(slots: &mut Vec<Option<PageRange>>, place: usize, range: PageRange) -> Result<(), Memory>
    requires within { place ≤ length slots.old.items }
    ensures ok { OnOk result (OnlyChanges slots.old.items slots.new.items place (Some range)) }
    ensures same { OnErr result (slots.new.items ≡ slots.old.items) }
{
    if place < slots.len() {
        slots[place] = Some(range);
        return Ok(());
    }
    match slots.push(Some(range)) {
        Ok(()) => Ok(()),
        Err(_) => Err(Memory {}),
    }
}

impl Claims {
    /// No claim. It takes no memory.
    pub fn new(alloc: Global) -> Self
        ensures none { (number : ℕ) → range_of result number ≡ None }
    {
        Claims {
            slots: Vec::new(alloc),
        }
    }

    /// Claims a range, or names the claim in the way that begins first.
    pub fn try_claim(&mut self, range: PageRange) -> Result<Result<ClaimNo, ClaimNo>, Memory>
        ensures claimed { IfOk result (λ tried. IfOk tried (λ c. IsClaimed self.old self.new range c.0)) }
        ensures taken { IfOk result (λ tried. IfErr tried (λ c. IsInTheWay self.old range c.0)) }
        ensures kept { IfOk result (λ tried. OnErr tried (self.new ≡ self.old)) }
        ensures same { OnErr result (self.new ≡ self.old) }
        ensures apart { Disjoint self.new }
    {
        if let Some(found) = first_in_way(&self.slots, range) {
            return Ok(Err(ClaimNo(found.place as u64)));
        }
        let place = free_place(&self.slots);
        put(&mut self.slots, place, range)?;
        Ok(Ok(ClaimNo(place as u64)))
    }

    /// The claim that has this page.
    pub fn covering(&self, page: PageNo) -> Option<ClaimNo>
        ensures { MatchOption result (NoneHas self.now page.0) (λ c. has_page (range_of self.now c.0) page.0 ≡ true) }
    {
        let place = place_with(&self.slots, page.0)?;
        Some(ClaimNo(place as u64))
    }

    /// Gives a claim up. It takes no memory.
    pub fn release(&mut self, claim: ClaimNo) -> PageRange
        requires live { is_some (range_of self.old claim.0) ≡ true }
        ensures gives { range_of self.old claim.0 ≡ Some result }
        ensures gone { OnlyChanges self.old self.new claim.0 None }
        ensures apart { Disjoint self.new }
    {
        match self.slots[claim.0 as usize].take() {
            Some(range) => range,
            None => unreachable!(),
        }
    }
}
