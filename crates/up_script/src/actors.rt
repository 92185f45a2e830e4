ghost use Rattle.std.specs.Prelude.{◌≡◌, ◌≤◌, ◌<◌, [], ◌∷◌, ◌++◌, length, slice_get, IsTrue, ◌↔◌, IfSome, IfOk, IfErr};
ghost use Rattle.up_script.specs.Objects.{actor_named, is_user, is_pager, is_worker, is_evictor, is_server, is_among, acts_on, users_of, pagers_of};
ghost use Rattle.up_script.specs.Actions.{is_bound, kind_of};
ghost use Rattle.up_words.specs.declared.fault.Stop.TheVariants.{Memory as MemoryStop};

use crate::script::{ActorLine, ActorLines, Kind};
use std::alloc::Global;
use std::marker::Model;
use up_num::Items;
use up_words::Stop;

/// The actors so far, at most 64.
#[derive(Debug, Drop)]
pub struct Actors {
    items: ActorLines,
}

impl Model for Actors {
    ghost use Rattle.std.specs.Prelude.{List, length, ◌≤◌};
    ghost use Rattle.up_script.specs.declared.script.ActorLine.{ActorLine};

    ghost Value = { List ActorLine };

    ghost view = { λ actors. actors.items };

    ghost invariant = { λ actors. length actors.items ≤ 64 };
}

impl Actors {
    pub fn new(alloc: Global) -> Self
        ensures { result ≡ [] }
    {
        Actors {
            items: Items::new(alloc),
        }
    }

    pub fn is_full(&self) -> bool
        ensures { IsTrue result ↔ (64 ≤ length self.now) }
    {
        64 <= self.items.len()
    }

    /// The number of the actor of this name.
    pub fn find(&self, name: &[u8]) -> Option<u32>
        ensures found { result ≡ actor_named name.now self.now }
        ensures within { IfSome result (λ actor. actor < length self.now) }
    {
        find_in(self.items.as_slice(), name)
    }

    /// The actor's kind, that of a user past the last one.
    pub fn kind_of(&self, actor: u32) -> Kind
        ensures { result ≡ kind_of (slice_get self.now actor) }
    {
        match self.items.as_slice().get(actor as usize) {
            None => Kind::User,
            Some(line) => line.kind,
        }
    }

    /// The actor may do something on this object.
    pub fn is_bound(&self, actor: u32, object: Option<u32>) -> bool
        ensures { result ≡ is_bound (slice_get self.now actor) object }
    {
        match self.items.as_slice().get(actor as usize) {
            None => false,
            Some(line) => match object {
                None => true,
                Some(object) => acts(line, object),
            },
        }
    }

    /// How many users an object has.
    pub fn users_of(&self, object: u32) -> u32
        ensures count { result ≡ users_of self.now object }
        ensures few { result ≤ 64 }
    {
        count_users(self.items.as_slice(), object)
    }

    /// How many pagers and workers an object has.
    pub fn pagers_of(&self, object: u32) -> u32
        ensures count { result ≡ pagers_of self.now object }
        ensures few { result ≤ 64 }
    {
        count_pagers(self.items.as_slice(), object)
    }

    pub fn push(self, actor: ActorLine) -> Result<Actors, Stop>
        requires { length self < 64 }
        ensures ok { IfOk result (λ more. more ≡ self ++ actor ∷ []) }
        ensures err { IfErr result (λ stop. stop ≡ MemoryStop) }
    {
        let Actors { mut items } = self;
        items.push(actor)?;
        Ok(Actors { items })
    }

    pub fn into_lines(self) -> ActorLines
        ensures lines { result ≡ self }
        ensures few { length self ≤ 64 }
    {
        let Actors { items } = self;
        items
    }
}

fn find_in(actors: &[ActorLine], name: &[u8]) -> Option<u32>
    requires { length actors.now ≤ 64 }
    ensures found { result ≡ actor_named name.now actors.now }
    ensures within { IfSome result (λ actor. actor < length actors.now) }
{
    match actors
        .iter()
        .position(|actor| actor.name.as_slice() == name)
    {
        None => None,
        Some(actor) => Some(actor as u32),
    }
}

/// The number is among these.
pub fn is_in(numbers: &[u32], number: u32) -> bool
    ensures { result ≡ is_among numbers.now number }
{
    numbers.iter().any(|n| *n == number)
}

fn acts(actor: &ActorLine, object: u32) -> bool
    ensures { result ≡ acts_on actor.now object }
{
    is_in(actor.objects.as_slice(), object)
}

fn count_users(actors: &[ActorLine], object: u32) -> u32
    requires { length actors.now ≤ 64 }
    ensures count { result ≡ users_of actors.now object }
    ensures few { result ≤ 64 }
{
    let count = actors
        .iter()
        .filter(|actor| actor.kind.is_user() && acts(actor, object))
        .count();
    count as u32
}

fn count_pagers(actors: &[ActorLine], object: u32) -> u32
    requires { length actors.now ≤ 64 }
    ensures count { result ≡ pagers_of actors.now object }
    ensures few { result ≤ 64 }
{
    let count = actors
        .iter()
        .filter(|actor| actor.kind.is_server() && acts(actor, object))
        .count();
    count as u32
}

impl Kind {
    pub fn is_user(self) -> bool
        ensures { result ≡ is_user self }
    {
        matches!(self, Kind::User)
    }

    pub fn is_pager(self) -> bool
        ensures { result ≡ is_pager self }
    {
        matches!(self, Kind::Pager)
    }

    pub fn is_worker(self) -> bool
        ensures { result ≡ is_worker self }
    {
        matches!(self, Kind::Worker)
    }

    pub fn is_evictor(self) -> bool
        ensures { result ≡ is_evictor self }
    {
        matches!(self, Kind::Evictor)
    }

    /// Raw pagers and workers both serve an object.
    pub fn is_server(self) -> bool
        ensures { result ≡ is_server self }
    {
        matches!(self, Kind::Pager | Kind::Worker)
    }
}
