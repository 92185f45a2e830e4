ghost use Rattle.std.specs.Prelude.{◌≡◌, ◌<◌, length, OnOk};
ghost use Rattle.up_bank.specs.declared.kind.FrameKind.{FrameKind as FrameKindValue};
ghost use Rattle.up_hands.specs.Machined.{ReliefMade, Stays, owned};

use crate::machine::Machine;
use core::mem::replace_with;
use std::alloc::Global;
use std::marker::Model;
use std::snapshot::Snapshot;
use up_evictor::{Herd, Level, Reclaim, relieve};
use up_model::{Call, Reply};
use up_num::{Memory, PageSeq};
use up_object::FramesIn;

/// The objects in the middle of a relief, with what they were before, the actor in whose name it is made, and what was asked for and given so far.
struct UnderRelief {
    machine: Machine,
    start: Snapshot<Machine>,
    who: u32,
    reclaims: Vec<Reclaim>,
}

impl Model for UnderRelief {
    ghost use Rattle.std.specs.Prelude.{reverse};
    ghost use Rattle.up_hands.specs.Machined.{ReliefSoFar};
    ghost use Rattle.up_hands.specs.Reliefs.{ReliefStands};

    ghost Value = { ReliefSoFar };

    ghost view = { λ o. record { start = o.start.value; now = o.machine; who = o.who; reclaims = reverse o.reclaims.items } };

    ghost invariant = { ReliefStands };
}

impl Herd for UnderRelief {
    ghost use Rattle.std.specs.Prelude.{ℕ, length};
    ghost use Rattle.up_hands.specs.Machined.{Machined};

    ghost Origin = { Machined × ℕ };

    ghost origin = { λ objects. (objects.start, objects.who) };

    ghost size = { λ objects. length objects.now.lives };

    ghost reclaims = { λ objects. objects.reclaims };

    fn objects(&self) -> u32 {
        self.machine.objects()
    }

    fn evict(
        &mut self,
        alloc: Global,
        object: u32,
        limit: u32,
        max: u32,
    ) -> Result<PageSeq, Memory> {
        if self.reclaims.reserve(1).is_err() {
            return Err(Memory {});
        }
        let call = Call::Evict { limit, max };
        let reply = self
            .machine
            .act(alloc, object, self.who, call, FramesIn::NoneYet)?;
        let Reply::Pages(pages) = reply else {
            unreachable!()
        };
        let given = pages.len() as u32;
        self.reclaims.push_reserved(Reclaim {
            object,
            limit,
            max,
            given,
        });
        Ok(pages)
    }
}

/// A relief by so many pages, in the name of an actor.
#[derive(Clone, Copy)]
struct Relieving {
    alloc: Global,
    who: u32,
    want: u32,
    level: Level,
}

/// Makes pages absent in the name of an actor. Their frames go home.
pub fn relieve_for(
    machine: &mut Machine,
    alloc: Global,
    who: u32,
    want: u32,
    level: Level,
) -> Result<(), Memory>
    ensures ok { OnOk result (ReliefMade machine.old machine.new who want level) }
    ensures stays { Stays machine.old machine.new }
    ensures frames { (kind : FrameKindValue) → owned kind machine.new ≡ owned kind machine.old }
{
    let relieving = Relieving {
        alloc,
        who,
        want,
        level,
    };
    replace_with(machine, relieving, relieve_all)
}

fn relieve_all(machine: Machine, relieving: Relieving) -> (Machine, Result<(), Memory>)
    ensures ok { OnOk result.1 (ReliefMade machine result.0 relieving.who relieving.want relieving.level) }
    ensures stays { Stays machine result.0 }
    ensures frames { (kind : FrameKindValue) → owned kind result.0 ≡ owned kind machine }
{
    let Relieving {
        alloc,
        who,
        want,
        level,
    } = relieving;
    let start = Snapshot::of(&machine);
    let mut objects = UnderRelief {
        machine,
        start,
        who,
        reclaims: Vec::new(alloc),
    };
    let relief = relieve(alloc, &mut objects, want, level);
    let UnderRelief {
        machine,
        start: _,
        who: _,
        reclaims: _,
    } = objects;
    match relief {
        Ok(_) => (machine, Ok(())),
        Err(memory) => (machine, Err(memory)),
    }
}
