ghost use Rattle.std.specs.Prelude.{◌≡◌, ◌+◌, ◌<◌, ◌≤◌, ◌^◌, [], cond, true, length, map, min, nat_le, slice_get, vec_len, IsTrue, IfOk, OnOk, OnErr, Some};
ghost use Rattle.std.specs.Vec.{vec_capacity};
ghost use Rattle.std.specs.List.{list_all};
ghost use Rattle.up_bank.specs.declared.kind.FrameKind.{FrameKind as FrameKindValue};
ghost use Rattle.up_bank.specs.declared.kind.FrameKind.TheVariants.{Ordinary as OrdinaryKind, Loaned as LoanedKind};
ghost use Rattle.up_clock.specs.Known.{last_age};
ghost use Rattle.up_pages.specs.Frames.{count_kind};
ghost use Rattle.up_model.specs.Legal.{Legal, Life};
ghost use Rattle.up_model.specs.Reply as replies;
ghost use Rattle.up_model.specs.declared.entry.Brought.TheVariants.{Frames as FramesBrought, Scanned as ScanBrought};
ghost use Rattle.up_object.specs.Parts.{bank_of};
ghost use Rattle.up_object.specs.Change.{AllAre, AllOwn};
ghost use Rattle.up_object.specs.OneCall.{brought_of, frames_of};
ghost use Rattle.up_object.specs.Whole.{after, held, life_of};
ghost use Rattle.up_core.specs.Requests.{kind_taken, Agrees};
ghost use Rattle.up_steps.specs.Handed.{new_life, ends_of, is_fair, AllLegal};
ghost use Rattle.up_hands.specs.Machined.{Machined, owned, AllOf, Acted, Stays};
ghost use Rattle.up_banks.specs.Pools.{banks_of, stored, without, pool_without, pool_with};

use std::alloc::Global;
use std::marker::Model;
use up_bank::FrameKind;
use up_banks::Pool;
use up_clock::{Clock, ClockSeat};
use up_core::step;
use up_model::{Birth, Call, Entries, Reply};
use up_num::Memory;
use up_object::{FramesIn, Object, Stepped};
use up_pages::Frames;

/// Objects with the frames that aren't theirs, and a clock.
pub struct Machine {
    objects: Vec<Object>,
    pool: Pool,
    clock: Clock,
    seat: ClockSeat,
}

impl Model for Machine {
    ghost use Rattle.std.specs.Prelude.{map, min};
    ghost use Rattle.up_clock.specs.Known.{last_age};
    ghost use Rattle.up_object.specs.Whole.{life_of};
    ghost use Rattle.up_hands.specs.Machined.{Machined};
    ghost use Rattle.up_hands.specs.Machines.{MachineStands};

    ghost Value = { Machined };

    ghost view = { λ o. record { lives = map life_of o.objects.items; pool = o.pool; ages = min o.seat.ages last_age } };

    ghost invariant = { MachineStands };
}

impl Machine {
    /// New objects, whose frames are all at home.
    pub fn new(
        alloc: Global,
        births: &[Birth],
        ordinary: u32,
        loaned: u32,
    ) -> Result<Machine, Memory>
        requires fair { list_all is_fair births.now ≡ true }
        requires few { length births.now < 2 ^ 32 }
        requires ordinary { ordinary ≤ 16384 }
        requires loaned { loaned ≤ 4096 }
        ensures lives { IfOk result (λ made. made.lives ≡ map new_life births.now) }
        ensures home { IfOk result (λ made. (made.pool.ordinary.home ≡ ordinary) × (made.pool.loaned.home ≡ loaned)) }
        ensures ages { IfOk result (λ made. made.ages ≡ 0) }
    {
        let (clock, seat) = Clock::new(alloc)?;
        let mut pool = Pool::new(alloc, ordinary, loaned)?;
        match born(alloc, births, &mut pool) {
            Ok(objects) => Ok(Machine {
                objects,
                pool,
                clock,
                seat,
            }),
            Err(memory) => {
                pool.end();
                Err(memory)
            }
        }
    }

    /// Ends all objects, and gives their journals, oldest entry first.
    pub fn end(self, alloc: Global) -> Result<Vec<Entries>, Memory>
        ensures journals { IfOk result (λ ended. ended.items ≡ ends_of self.lives) }
    {
        let Machine {
            objects,
            mut pool,
            clock: _,
            seat: _,
        } = self;
        let ended = match Vec::with_capacity(alloc, objects.len()) {
            Ok(room) => Ok(end_all(objects, &mut pool, room)),
            Err(memory) => {
                let_go(objects, &mut pool);
                Err(memory)
            }
        };
        pool.end();
        ended
    }

    /// Ends all objects, and lets their journals go.
    pub fn let_go(self) {
        let Machine {
            objects,
            mut pool,
            clock: _,
            seat: _,
        } = self;
        let_go(objects, &mut pool);
        pool.end();
    }

    /// Tells the prover that all journals are legal.
    pub fn is_legal(&self)
        ensures { AllLegal self.now.lives }
    {
        self.objects.len();
    }

    /// Tells the prover that each of the two banks has frames of its kind.
    pub fn has_both_kinds(&self)
        ensures { (self.now.pool.ordinary.bank.kind ≡ OrdinaryKind)
            × (self.now.pool.loaned.bank.kind ≡ LoanedKind) }
    {
        self.objects.len();
    }

    /// How many objects there are.
    pub fn objects(&self) -> u32
        ensures { result ≡ length self.now.lives }
    {
        self.objects.len() as u32
    }

    /// How many ordinary frames are at home.
    pub fn free(&mut self) -> u32
        ensures value { result ≡ self.old.pool.ordinary.home }
        ensures same { self.new ≡ self.old }
    {
        self.pool.free()
    }

    /// Makes a call on an object. The frames that come back go home.
    pub fn act(
        &mut self,
        alloc: Global,
        object: u32,
        who: u32,
        call: Call,
        frames: FramesIn,
    ) -> Result<Reply, Memory>
        requires object { object < length self.old.lives }
        requires own { AllAre (bank_of (banks_of self.old.pool) (kind_taken call)) (frames_of frames) }
        requires agrees { Agrees call frames }
        requires proper { (life : Life) → slice_get self.old.lives object ≡ Some life → IsTrue (replies.proper life.birth life.journal who call) }
        ensures acted { IfOk result (λ reply. Acted self.old self.new object who call reply) }
        ensures same { OnErr result (self.new.lives ≡ self.old.lives) }
        ensures stays { Stays self.old self.new }
        ensures frames { (kind : FrameKindValue) → owned kind self.new ≡ owned kind self.old + count_kind kind (frames_of frames) }
    {
        let epoch = self.clock.now(&mut self.seat);
        act_on(
            &mut self.objects[object as usize],
            &mut self.pool,
            alloc,
            who,
            epoch,
            call,
            frames,
        )
    }

    /// Claims so many frames of a kind. Where fewer are at home all of them stay, and a scan is brought.
    pub fn gather(&mut self, alloc: Global, kind: FrameKind, count: u32) -> Result<FramesIn, Memory>
        requires { 0 < count }
        ensures brought { IfOk result (λ frames. brought_of frames ≡ cond (nat_le count (stored kind self.old.pool).home) (FramesBrought count) ScanBrought) }
        ensures own { IfOk result (λ frames. AllAre (bank_of (banks_of self.old.pool) kind) (frames_of frames)) }
        ensures within { IfOk result (λ frames. length (frames_of frames) ≤ (stored kind self.old.pool).home) }
        ensures ok { IfOk result (λ frames. self.new ≡ record self.old { pool = pool_without kind (length (frames_of frames)) self.old.pool }) }
        ensures err { OnErr result (self.new ≡ self.old) }
    {
        self.pool.gather(alloc, kind, count)
    }

    /// Claims all loaned frames that are at home, into a list.
    pub fn gather_all(&mut self, into: &mut Frames) -> Result<(), Memory>
        ensures own { AllAre self.old.pool.loaned.bank into.old.items → AllAre self.old.pool.loaned.bank into.new.items }
        ensures count { OnOk result (length into.new.items ≡ length into.old.items + self.old.pool.loaned.home) }
        ensures ok { OnOk result (self.new ≡ record self.old { pool = record self.old.pool { loaned = without self.old.pool.loaned.home self.old.pool.loaned } }) }
        ensures none { OnErr result (into.new ≡ into.old) }
        ensures err { OnErr result (self.new ≡ self.old) }
    {
        self.pool.gather_all(into)
    }

    /// Brings frames home, each to the bank of its kind.
    pub fn bring_home(&mut self, frames: Frames)
        requires { AllOwn (banks_of self.old.pool) frames.items }
        ensures { self.new ≡ record self.old { pool = pool_with frames.items self.old.pool } }
    {
        self.pool.bring_home(frames);
    }

    /// The clock ages.
    pub fn age(&mut self)
        ensures { self.new ≡ record self.old { ages = min (self.old.ages + 1) last_age } }
    {
        self.clock.age(&mut self.seat);
    }
}

/// Makes a call on an object. The frames that come back go home.
fn act_on(
    object: &mut Object,
    pool: &mut Pool,
    alloc: Global,
    who: u32,
    epoch: u64,
    call: Call,
    frames: FramesIn,
) -> Result<Reply, Memory>
    requires banks { object.old.banks ≡ banks_of pool.old }
    requires kinds { (pool.old.ordinary.bank.kind ≡ OrdinaryKind) × (pool.old.loaned.bank.kind ≡ LoanedKind) }
    requires own { AllAre (bank_of object.old.banks (kind_taken call)) (frames_of frames) }
    requires agrees { Agrees call frames }
    requires proper { IsTrue (replies.proper object.old.birth object.old.journal who call) }
    ensures reply { IfOk result (λ reply. reply ≡ replies.reply object.old.birth object.old.journal who epoch call) }
    ensures ok { OnOk result (object.new ≡ after object.old who epoch call) }
    ensures err { OnErr result (object.new ≡ object.old) }
    ensures kept { (object.new.birth ≡ object.old.birth) × (object.new.banks ≡ object.old.banks) }
    ensures banks { banks_of pool.new ≡ banks_of pool.old }
    ensures frames { (kind : FrameKindValue) → (stored kind pool.new).home + held object.new.birth object.new.journal kind ≡ (stored kind pool.old).home + held object.old.birth object.old.journal kind + count_kind kind (frames_of frames) }
    ensures legal { Legal object.new.birth object.new.journal }
{
    match step(object, alloc, who, epoch, call, frames) {
        Ok(Stepped { reply, back }) => {
            pool.bring_home(back);
            object.is_legal();
            Ok(reply)
        }
        Err((memory, back)) => {
            pool.bring_home(back);
            object.is_legal();
            Err(memory)
        }
    }
}

/// New objects, with no entry yet.
fn born(alloc: Global, births: &[Birth], pool: &mut Pool) -> Result<Vec<Object>, Memory>
    requires { list_all is_fair births.now ≡ true }
    ensures lives { IfOk result (λ objects. map life_of objects.items ≡ map new_life births.now) }
    ensures banks { IfOk result (λ objects. AllOf (banks_of pool.old) objects.items) }
    ensures pool { OnOk result (pool.new ≡ pool.old) }
{
    let mut objects = Vec::with_capacity(alloc, births.len())?;
    for one in births {
        match pool.birth(alloc, *one) {
            Ok(object) => objects.push_reserved(object),
            Err(memory) => {
                let_go(objects, pool);
                return Err(memory);
            }
        }
    }
    Ok(objects)
}

/// Ends all objects, and gives their journals.
fn end_all(objects: Vec<Object>, pool: &mut Pool, room: Vec<Entries>) -> Vec<Entries>
    requires banks { AllOf (banks_of pool.old) objects.items }
    requires empty { room.items ≡ [] }
    requires enough { vec_len objects ≤ vec_capacity room }
    ensures { result.items ≡ ends_of (map life_of objects.items) }
{
    let mut rest = objects;
    let mut ended = room;
    while let Some(object) = rest.pop() {
        let (entries, frames) = object.end();
        pool.bring_home(frames);
        ended.push_reserved(entries);
    }
    rest.destroy_empty();
    ended.reverse();
    ended
}

/// Ends all objects, and lets their journals go.
fn let_go(objects: Vec<Object>, pool: &mut Pool)
    requires { AllOf (banks_of pool.old) objects.items }
{
    let mut rest = objects;
    while let Some(object) = rest.pop() {
        let (_, frames) = object.end();
        pool.bring_home(frames);
    }
    rest.destroy_empty();
}
