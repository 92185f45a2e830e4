ghost use Rattle.std.specs.Prelude.{◌≡◌, ◌<◌, Some, None, true, length, get_or, slice_set, IfOk, IsOk, IfSome, IfErr, OnOk, OnErr, MatchOption, is_err, is_some};
ghost use Rattle.up_disk.specs.Left.{NothingPending};
ghost use Rattle.up_disk.specs.Shelved.{IfGiven, IfNotGiven, OthersStay, StandsAt, is_named, held_as, held_disk, held_without, has_blocks, bring_fails, after_failed, after_given, shelved, stored_as, with_last};
ghost use Rattle.up_outside.specs.Cause.{HasCause};

use crate::noted::Noted;
use crate::{Disk, Failed, Shelf};
use std::alloc::Global;
use std::marker::Model;
use up_num::{Bytes, Memory};
use up_outside::Plan;

// A disk on the shelf, with its name and its number of blocks.
#[derive(Drop)]
struct ShelvedDisk<D: Disk> {
    name: Bytes,
    blocks: u32,
    disk: D,
}

impl<D: Disk> Model for ShelvedDisk<D> {
    ghost use Rattle.std.specs.Prelude.{◌≡◌};
    ghost use Rattle.up_disk.specs.Left.{NothingPending};
    ghost use Rattle.up_disk.specs.Shelved.{Stored};

    ghost Value = { Stored D };

    ghost view = { λ held. record { name = held.name; blocks = held.blocks; disk = held.disk } };

    ghost invariant = { λ held. (D.count held.disk ≡ held.blocks)
        × NothingPending D.lasts D.time D.leaves D.blocks held.disk };
}

/// A shelf in memory, some calls of which fail. It tells what it holds.
#[derive(Drop)]
pub struct MemShelf<D: Disk> {
    held: Vec<ShelvedDisk<D>>,
    brought: Vec<Noted<D>>,
    back: Vec<Option<D>>,
    plan: Plan,
    room: u32,
}

impl<D: Disk> Model for MemShelf<D> {
    ghost use Rattle.std.specs.Prelude.{◌≤◌, vec_len, vec_capacity};
    ghost use Rattle.up_disk.specs.Shelved.{Shelved};

    ghost Value = { Shelved D };

    ghost view = { λ shelf. record {
      held = shelf.held.items;
      brought = shelf.brought.items;
      back = shelf.back.items;
      fail = shelf.plan.fail;
      room = shelf.room;
      calls = shelf.plan.calls;
      faults = shelf.plan.faults;
    } };

    ghost invariant = { λ shelf. ((vec_len shelf.brought ≤ shelf.plan.calls) × (shelf.room ≤ vec_capacity shelf.brought))
        × ((vec_len shelf.back ≤ shelf.plan.calls) × (shelf.room ≤ vec_capacity shelf.back)) };
}

impl<D: Disk> MemShelf<D> {
    /// An empty shelf. `fail` has the numbers of the calls of `bring` that fail, counted from 1, and each after `room` of
    /// them fails too.
    pub fn new(alloc: Global, fail: &[u32], room: u32) -> Result<MemShelf<D>, Memory>
        ensures { IfOk result (λ made. made ≡ shelved fail.now room) }
    {
        let plan = Plan::new(alloc, fail)?;
        let brought = Vec::with_capacity(alloc, room as usize)?;
        let back = Vec::with_capacity(alloc, room as usize)?;
        let held = Vec::new(alloc);
        Ok(MemShelf {
            held,
            brought,
            back,
            plan,
            room,
        })
    }

    /// Puts a disk of so many blocks on the shelf, under a name that is free. After want of memory the disk comes back.
    pub fn hold(
        &mut self,
        alloc: Global,
        name: &[u8],
        blocks: u32,
        disk: D,
    ) -> Result<(), (Memory, D)>
        requires free { held_as name.now self.old.held ≡ None }
        requires count { D.count disk ≡ blocks }
        requires still { NothingPending D.lasts D.time D.leaves D.blocks disk }
        ensures ok { OnOk result (self.new ≡ record self.old { held = with_last self.old.held (stored_as name.now blocks disk) }) }
        ensures same { OnErr result (self.new ≡ self.old) }
        ensures back { IfErr result (λ failed. failed.1 ≡ disk) }
    {
        let Ok(name) = Bytes::from_slice(alloc, name) else {
            return Err((Memory {}, disk));
        };
        if self.held.reserve(1).is_err() {
            return Err((Memory {}, disk));
        }
        self.held.push_reserved(ShelvedDisk { name, blocks, disk });
        Ok(())
    }

    /// The disk that was last put back in this place.
    pub fn back(&self, place: u32) -> Option<&D>
        ensures { MatchOption result (get_or self.now.back place None ≡ None) (λ disk. get_or self.now.back place None ≡ Some disk.now) }
    {
        match self.back.get(place as usize) {
            Some(Some(disk)) => Some(disk),
            _ => None,
        }
    }
}

impl<D: Disk + Send + Drop> Shelf for MemShelf<D> {
    ghost use Rattle.up_disk.specs.Shelved.{held_disk};

    type D = D;

    ghost holds = { λ shelf. held_disk shelf.held };

    ghost brought = { λ shelf. shelf.brought };

    ghost back = { λ shelf. shelf.back };

    ghost faults = { λ shelf. shelf.faults };

    fn bring(
        &mut self,
        _alloc: Global,
        name: &[u8],
        blocks: u32,
    ) -> Result<Result<D, Failed>, Memory>
        ensures never { IsOk result }
        ensures planned { IfOk result (λ given. is_err given ≡ bring_fails self.old name.now blocks) }
        ensures held { IfGiven result (λ disk. held_as name.now self.old.held ≡ Some (stored_as name.now blocks disk)) }
        ensures given { IfGiven result (λ disk. self.new ≡ after_given self.old name.now disk) }
        ensures failed { IfNotGiven result (self.new ≡ after_failed self.old) }
        ensures count { IfGiven result (λ disk. D.count disk ≡ blocks) }
        ensures still { IfGiven result (NothingPending D.lasts D.time D.leaves D.blocks) }
        ensures others { OthersStay (held_disk self.old.held) (held_disk self.new.held) name.now }
        ensures cause { IfOk result (λ given. HasCause self.old.faults self.new.faults given) }
    {
        let full = self.plan.calls >= u64::from(self.room);
        let found = found(&self.held, name, blocks);
        if self.plan.begin(full || found.is_none()).is_err() {
            return Ok(Err(Failed));
        }
        let Some(place) = found else { unreachable!() };
        let (called, disk) = take_out(&mut self.held, place, name, blocks);
        self.brought.push_reserved(Noted::of(called, &disk));
        self.back.push_reserved(None);
        Ok(Ok(disk))
    }

    fn put_back(&mut self, place: u32, disk: D)
        requires { place < length self.old.back }
        ensures { self.new ≡ record self.old { back = slice_set self.old.back place (Some disk) } }
    {
        self.back[place as usize] = Some(disk);
    }
}

// Where the disk of this name stands, if it has so many blocks.
fn found<D: Disk>(held: &Vec<ShelvedDisk<D>>, name: &[u8], blocks: u32) -> Option<usize>
    ensures some { is_some result ≡ has_blocks (held_as name.now held.now.items) blocks }
    ensures place { IfSome result (λ place. StandsAt name.now held.now.items place) }
{
    let place = place_of(held, name)?;
    if held[place].blocks == blocks {
        Some(place)
    } else {
        None
    }
}

// Where the disk of this name stands.
fn place_of<D: Disk>(held: &Vec<ShelvedDisk<D>>, name: &[u8]) -> Option<usize>
    ensures { MatchOption result (held_as name.now held.now.items ≡ None) (λ place. StandsAt name.now held.now.items place) }
{
    for place in 0..held.len() {
        if is_called(&held[place], name) {
            return Some(place);
        }
    }
    None
}

fn is_called<D: Disk>(held: &ShelvedDisk<D>, name: &[u8]) -> bool
    ensures { result ≡ is_named name.now held.now }
{
    held.name.as_slice() == name
}

// Takes the disk that stands there under this name.
fn take_out<D: Disk>(
    held: &mut Vec<ShelvedDisk<D>>,
    place: usize,
    name: &[u8],
    blocks: u32,
) -> (Bytes, D)
    requires stands { StandsAt name.now held.old.items place }
    requires whole { has_blocks (held_as name.now held.old.items) blocks ≡ true }
    ensures held { held_as name.now held.old.items ≡ Some (stored_as name.now blocks result.1) }
    ensures name { result.0 ≡ name.now }
    ensures rest { held.new.items ≡ held_without name.now held.old.items }
    ensures count { D.count result.1 ≡ blocks }
    ensures still { NothingPending D.lasts D.time D.leaves D.blocks result.1 }
{
    let ShelvedDisk {
        name: called,
        disk,
        ..
    } = held.remove(place);
    (called, disk)
}
