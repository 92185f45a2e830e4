ghost use Rattle.std.specs.Prelude.{◌≡◌, ℕ, ◌+◌, ◌<◌, ◌≤◌, ◌++◌, ◌∷◌, [], true, false, length, All, IfOk, IfErr};
ghost use Rattle.std.specs.Prelude.{IsPermutation};
ghost use Rattle.std.specs.List.Sorted.{IsNonDecreasing};
ghost use Rattle.up_model.specs.Legal.{Legal};
ghost use Rattle.up_turn.specs.Placing.{placed, by, has, without, Begins, Tally};
ghost use Rattle.up_turn.specs.Standing.{first_pass, second_pass, Counts, joined, IsLast};
ghost use Rattle.up_site.specs.Standing.{telling};
ghost use Rattle.up_live.specs.Origins.{beginning_of};
ghost use Rattle.up_live.specs.Acts.{MayAct, journal_of, SeenNewest, IsIn};

use crate::origin::SharedSite;
use crate::wakes::{Wakes, bits_of};
use std::alloc::Global;
use std::marker::Model;
use std::sync::Wait;
use std::sync::atomic::{AtomicU64, Ordering};
use std::thread::Parker;
use up_disk::Disk;
use up_num::Memory;
use up_site::Site;
use up_turn::{Held, Pass, Turn};

/// A site that threads share. Each actor has a place to park.
pub struct Live<D: Disk> {
    pub(crate) turn: Turn<SharedSite<D>>,
    pub(crate) parkers: Vec<Parker>,
    // A bit for each worker, and for each actor in a sync.
    pub(crate) workers: u64,
    pub(crate) syncing: AtomicU64,
}

impl<D: Disk> Model for Live<D> {
    ghost use Rattle.std.specs.Prelude.{◌≡◌, length};
    ghost use Rattle.up_turn.specs.Standing.{TurnId};
    ghost use Rattle.up_site.specs.Hosted.{Hosted};

    ghost Value = { TurnId (Hosted D) };

    ghost view = { λ live. live.turn };

    ghost invariant = { λ live. length live.parkers.items ≡ live.turn.actors };
}

// A place to park for each actor.
fn parkers_for(alloc: Global, actors: u32) -> Result<Vec<Parker>, Memory>
    ensures { IfOk result (λ parkers. length parkers.items ≡ actors) }
{
    let mut parkers = Vec::new(alloc);
    for _actor in 0..actors {
        parkers.push(Parker::new())?;
    }
    Ok(parkers)
}

impl<D: Disk> Live<D> {
    /// A site without entries, for the actors whose numbers are below `actors`, of which some are workers; and its
    /// first pass, which holds all these numbers.
    pub fn new(
        alloc: Global,
        site: Site<D>,
        actors: u32,
        workers: &[u32],
    ) -> Result<(Live<D>, Pass<SharedSite<D>>), (Memory, Site<D>)>
        requires empty { site.whole.journal ≡ [] }
        requires few { actors ≤ 64 }
        requires workers { All (λ who. who < actors) workers.now }
        ensures live { IfOk result (λ made. (made.0.opening ≡ site) × (made.0.actors ≡ actors)) }
        ensures pass { IfOk result (λ made. made.1 ≡ first_pass made.0.table actors) }
        ensures site { IfErr result (λ failed. failed.1 ≡ site) }
    {
        let Ok(parkers) = parkers_for(alloc, actors) else {
            return Err((Memory {}, site));
        };
        let (turn, pass) = match Turn::new(alloc, SharedSite { site }, actors) {
            Ok(made) => made,
            Err((memory, SharedSite { site })) => return Err((memory, site)),
        };
        let live = Live {
            turn,
            parkers,
            workers: bits_of(workers),
            syncing: AtomicU64::new(0),
        };
        Ok((live, pass))
    }

    // Waits until no pass is inside, and goes in.
    pub(crate) fn go_in<R: Wait>(
        &self,
        rt: &R,
        pass: &mut Pass<SharedSite<D>>,
        who: u32,
    ) -> Held<SharedSite<D>>
        requires may { MayAct self.now.table pass.old who }
        ensures turn { result.turn.value ≡ self.now }
        ensures is_in { IsIn who pass.old pass.new result.state self.now.opening }
    {
        let inside = self.turn.enter(rt, pass);
        inside.state.site.object().is_legal();
        inside
    }

    // Wakes those who are to be woken. The turn was left before.
    pub(crate) fn wake_up(&self, wakes: Wakes) {
        let mut bits = wakes.these;
        if wakes.workers {
            bits |= self.workers;
        }
        if wakes.syncs {
            bits |= self.syncing.load(Ordering::SeqCst);
        }
        for parker in self.parkers.as_slice() {
            if wakes.all || bits % 2 == 1 {
                parker.unpark();
            }
            bits /= 2;
        }
    }

    /// Parks an actor until it is woken. A call that woke it before lets it go on at once.
    pub fn park<R: Wait>(&self, rt: &R, who: u32)
        requires { who < self.now.actors }
    {
        self.parkers[who as usize].park(rt);
    }

    /// How many entries there are, by one load. It waits for nobody.
    pub fn front(&self, pass: &mut Pass<SharedSite<D>>) -> u64
        requires turn { pass.old.turn ≡ self.now.table }
        ensures pass { pass.new ≡ record pass.old { finds = pass.old.finds ++ result ∷ [] } }
        ensures seen { length pass.old.seen ≤ result }
        ensures finds { All (λ n. n ≤ result) pass.old.finds }
        ensures rising { IsNonDecreasing pass.new.finds }
    {
        self.turn.front(pass)
    }

    /// A second pass, for another thread, which takes over the number of an actor that made no entry yet.
    pub fn split(&self, pass: &mut Pass<SharedSite<D>>, who: u32) -> Pass<SharedSite<D>>
        requires turn { pass.old.turn ≡ self.now.table }
        requires holds { has pass.old.numbers who ≡ true }
        requires fresh { by who pass.old.own ≡ [] }
        requires counts { Counts pass.old.first (without who pass.old.numbers) }
        ensures pass { pass.new ≡ record pass.old { numbers = without who pass.old.numbers } }
        ensures second { result ≡ second_pass self.now.table pass.old.seen who }
    {
        self.turn.split(pass, who)
    }

    /// Gives up a pass. The one that stays has both passes' numbers and own entries.
    pub fn join(&self, pass: &mut Pass<SharedSite<D>>, other: Pass<SharedSite<D>>)
        requires turn { (pass.old.turn ≡ self.now.table) × (other.turn ≡ self.now.table) }
        requires outside { other.inside ≡ false }
        ensures pass { pass.new ≡ joined pass.old other }
        ensures seen { Begins pass.old.seen pass.new.seen × Begins other.seen pass.new.seen }
        ensures own { Tally pass.new.numbers pass.new.own pass.new.seen }
    {
        self.turn.join(pass, other)
    }

    /// The site at the end, once all passes were joined into one. Its journal is what the pass has seen, and that is
    /// the pass's own entries, each once.
    pub fn close(self, pass: Pass<SharedSite<D>>) -> Site<D>
        requires turn { pass.turn ≡ self.table }
        requires outside { pass.inside ≡ false }
        requires last { IsLast self.actors pass }
        ensures origin { beginning_of result ≡ beginning_of self.opening }
        ensures list { result.whole.journal ≡ journal_of pass }
        ensures legal { Legal self.opening.whole.birth (journal_of pass) }
        ensures newest { SeenNewest (telling D.tells D.count D.blocks D.faults D.lasts D.time D.leaves)
            (beginning_of self.opening) (journal_of pass) }
        ensures own { (n : ℕ) → by n pass.own ≡ by n (placed 0 pass.seen) }
        ensures each_once { IsPermutation pass.own (placed 0 pass.seen) }
    {
        let Live {
            turn,
            parkers: _,
            workers: _,
            syncing: _,
        } = self;
        let SharedSite { site } = turn.close(pass);
        site.object().is_legal();
        site.keeps();
        site
    }
}
