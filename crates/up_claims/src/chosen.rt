ghost use Rattle.std.specs.Prelude.{◌≡◌, [], IfOk, OnOk, OnErr};
ghost use Rattle.up_span.specs.Sets.{holds, Apart};
ghost use Rattle.up_claims.specs.Sets.{without};

use std::alloc::Global;
use std::marker::Model;
use up_num::{Memory, PageRange};
use up_span::Spans;

/// A set of pages that contracts see as its maximal runs, rising.
#[derive(Debug, Drop)]
pub struct Chosen {
    pages: Spans,
}

impl Model for Chosen {
    ghost use Rattle.std.specs.Prelude.{List};
    ghost use Rattle.up_span.specs.Sets.{Apart};
    ghost use Rattle.up_span.specs.declared.run.Run.{Run};

    ghost Value = { List Run };

    ghost view = { λ seen. seen.pages.runs };

    ghost invariant = { λ seen. Apart 0 seen.pages.runs };
}

/// Tells the prover that the runs of a set lie apart.
fn lie_apart(pages: &Spans)
    ensures { Apart 0 pages.now.runs }
{
    pages.first_run();
}

impl Chosen {
    /// No page. It takes no memory.
    pub fn none(alloc: Global) -> Self
        ensures { result ≡ [] }
    {
        Chosen {
            pages: Spans::new(alloc),
        }
    }

    /// These pages.
    pub fn new(pages: Spans) -> Self
        ensures { result ≡ pages.runs }
    {
        lie_apart(&pages);
        Chosen { pages }
    }

    pub fn holds(&self, page: u32) -> bool
        ensures { result ≡ holds self.now page }
    {
        self.pages.holds(page)
    }

    pub fn copy(&self, alloc: Global) -> Result<Self, Memory>
        ensures { IfOk result (λ copied. copied ≡ self.now) }
    {
        let pages = self.pages.copy(alloc)?;
        Ok(Chosen { pages })
    }

    /// Takes the pages of a range out.
    pub fn remove(&mut self, range: PageRange) -> Result<(), Memory>
        ensures ok { OnOk result (self.new ≡ without self.old range) }
        ensures err { OnErr result (self.new ≡ self.old) }
    {
        self.pages.remove(range.first, range.count)?;
        lie_apart(&self.pages);
        Ok(())
    }
}
