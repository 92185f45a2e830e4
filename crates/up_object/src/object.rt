ghost use Rattle.std.specs.Prelude.{◌≡◌, ◌<◌, ◌≤◌, ◌^◌, [], length, reverse, IfOk};
ghost use Rattle.up_bank.specs.declared.kind.FrameKind.{FrameKind as FrameKindValue};
ghost use Rattle.up_bank.specs.declared.kind.FrameKind.TheVariants.{Ordinary as OrdinaryKind, Loaned as LoanedKind};
ghost use Rattle.up_pages.specs.Frames.{count_kind};
ghost use Rattle.up_object.specs.Whole.{held};
ghost use Rattle.up_object.specs.Change.{AllOwn};
ghost use Rattle.up_model.specs.Size as sizes;
ghost use Rattle.up_model.specs.Pins as pinning;
ghost use Rattle.up_model.specs.Looks as looks;
ghost use Rattle.up_model.specs.Legal.{Legal};
ghost use Rattle.up_object.specs.Parts.{shown};

use crate::banks::Banks;
use crate::marks::Marks;
use crate::numbers::Numbers;
use crate::tally::Tally;
use std::alloc::Global;
use std::marker::Model;
use std::snapshot::Snapshot;
use up_asks::Asks;
use up_bank::Bank;
use up_model::{Birth, Entries, Log};
use up_num::{Memory, PageNo};
use up_pages::{Frames, Look, PageList};
use up_queues::Queues;

/// A memory object with its journal. It holds frames, so it has to be ended.
pub struct Object {
    pub(crate) birth: Birth,
    pub(crate) banks: Banks,
    pub(crate) pages: PageList,
    pub(crate) marks: Marks,
    pub(crate) queues: Queues,
    pub(crate) asks: Asks,
    pub(crate) tally: Tally,
    pub(crate) numbers: Numbers,
    pub(crate) newest: u64,
    pub(crate) leaves: u32,
    pub(crate) log: Log,
}

impl Model for Object {
    ghost use Rattle.up_object.specs.Whole.{Whole};

    ghost Value = { Whole };

    ghost use Rattle.up_object.specs.Object.{Stands};

    ghost view = { λ o. record { birth = o.birth; journal = o.log.entries; banks = o.banks } };

    ghost invariant = { Stands };
}

impl Object {
    /// A new object of so many absent pages, whose frames will be of these banks. It takes room for the entries of all leaves.
    pub fn birth(
        alloc: Global,
        birth: Birth,
        ordinary: &Bank,
        loaned: &Bank,
    ) -> Result<Object, Memory>
        requires users { (0 < birth.users) × (birth.users ≤ 64) }
        requires pagers { (0 < birth.pagers) × (birth.pagers ≤ 64) }
        requires kinds { (ordinary.now.kind ≡ OrdinaryKind) × (loaned.now.kind ≡ LoanedKind) }
        ensures object { IfOk result (λ object. object ≡ record { birth = birth; journal = []; banks = record { ordinary = ordinary.now; loaned = loaned.now } }) }
        ensures legal { Legal birth [] }
    {
        let leaves = birth.users + birth.pagers;
        let mut log = Log::new(alloc);
        log.room(leaves)?;
        let mut queues = Queues::new(alloc);
        queues.reserve(birth.pages)?;
        let marks = Marks::new(alloc, birth.pages)?;
        let banks = Banks {
            ordinary: Snapshot::of(ordinary),
            loaned: Snapshot::of(loaned),
        };
        let tally = Tally {
            users: birth.users,
            pagers: birth.pagers,
            detached: false,
            modified: false,
        };
        let asks = Asks::new(alloc)?;
        let numbers = Numbers::new(alloc);
        let pages = PageList::new(alloc, birth.pages)?;
        Ok(Object {
            birth,
            banks,
            pages,
            marks,
            queues,
            asks,
            tally,
            numbers,
            newest: 0,
            leaves,
            log,
        })
    }

    /// Ends the object. It gives the journal, oldest entry first, and the frames of all pages. It takes no memory.
    pub fn end(self) -> (Entries, Frames)
        ensures journal { result.0 ≡ reverse self.journal }
        ensures frames { (kind : FrameKindValue) → count_kind kind result.1.items ≡ held self.birth self.journal kind }
        ensures own { AllOwn self.banks result.1.items }
        ensures legal { Legal self.birth self.journal }
    {
        let Object {
            birth: _,
            banks: _,
            pages,
            marks: _,
            queues: _,
            asks: _,
            tally: _,
            numbers: _,
            newest: _,
            leaves: _,
            log,
        } = self;
        (log.end(), pages.end())
    }

    /// How many entries the journal has.
    pub fn count(&self) -> u64
        ensures value { result ≡ length self.now.journal }
        ensures small { result < 2 ^ 63 }
    {
        self.log.count()
    }

    /// Tells the prover that the journal is legal.
    pub fn is_legal(&self)
        ensures { Legal self.now.birth self.now.journal }
    {
        self.size();
    }

    /// Tells the prover that the number of pages fits 32 bits.
    pub fn is_bounded(&self)
        ensures { sizes.size self.now.birth self.now.journal < 2 ^ 32 }
    {
        self.size();
    }

    /// How many pages the object has.
    pub fn size(&self) -> u32
        ensures value { result ≡ sizes.size self.now.birth self.now.journal }
        ensures legal { Legal self.now.birth self.now.journal }
        ensures kinds { (self.now.banks.ordinary.kind ≡ OrdinaryKind) × (self.now.banks.loaned.kind ≡ LoanedKind) }
    {
        self.pages.size()
    }

    /// What a page is. Past the object's end all are absent.
    pub fn look(&self, page: PageNo) -> Look
        ensures { shown result ≡ looks.look_of self.now.birth self.now.journal page.0 }
    {
        self.pages.look(page)
    }

    /// How many pins a page has.
    pub fn pins(&self, page: PageNo) -> u32
        ensures { result ≡ pinning.pins self.now.journal page.0 }
    {
        self.marks.at(page.0).pins
    }

    /// Whether a page is never evicted.
    pub fn protected(&self, page: PageNo) -> bool
        ensures { result ≡ pinning.always self.now.birth self.now.journal page.0 }
    {
        self.marks.at(page.0).always
    }
}
