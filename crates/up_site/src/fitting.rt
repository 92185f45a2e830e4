//! Which steps an actor may make, by how far it has come.
ghost use Rattle.std.specs.Prelude.{◌≡◌, true, is_some};
ghost use Rattle.up_model.specs.Reply.{brings};
ghost use Rattle.up_claims.specs.Claimed.{claim_of};
ghost use Rattle.up_claims.specs.Sited.{fits};
ghost use Rattle.up_claims.specs.declared.step.SiteStep.TheVariants as steps;
ghost use Rattle.up_site.specs.Places.{claim_as};

use crate::hosting::Hosting;
use crate::imaged::Imaged;
use crate::site::Site;
use crate::tours::Progress;
use up_claims::SiteStep;
use up_disk::Disk;
use up_model::Brought;

// Whether a page can be supplied with what is brought.
fn brings_one(brought: Brought) -> bool
    ensures { result ≡ brings 1 brought }
{
    match brought {
        Brought::Nothing => false,
        Brought::Frames(count) => count == 1,
        Brought::Scanned => true,
    }
}

fn may_deliver(progress: Progress, brought: Brought) -> bool
    ensures { result ≡ fits steps.Deliver (claim_as progress) brought }
{
    match progress {
        Progress::Read(_) => brings_one(brought),
        Progress::Unread(_) => true,
        _ => false,
    }
}

fn may_store(progress: Progress, brought: Brought) -> bool
    ensures { result ≡ fits steps.Store (claim_as progress) brought }
{
    match progress {
        Progress::Copied {
            range,
            number: _,
            stored,
        } => stored < range.count,
        _ => false,
    }
}

fn may_end(progress: Progress, brought: Brought) -> bool
    ensures { result ≡ fits steps.End (claim_as progress) brought }
{
    match progress {
        Progress::Copied {
            range,
            number: _,
            stored,
        } => stored == range.count,
        _ => false,
    }
}

// Whether the step fits an actor that has come so far.
fn fits(step: &SiteStep, progress: Progress, brought: Brought) -> bool
    ensures { result ≡ fits step.now (claim_as progress) brought }
{
    match step {
        SiteStep::Deliver => may_deliver(progress, brought),
        SiteStep::Copy => matches!(progress, Progress::Begun { .. }),
        SiteStep::Store => may_store(progress, brought),
        SiteStep::End => may_end(progress, brought),
        _ => matches!(progress, Progress::Free),
    }
}

impl<D: Disk> Imaged<D> {
    fn may_step(&self, who: u32, step: &SiteStep, brought: Brought) -> bool
        ensures { result ≡ fits step.now (claim_of self.now.whole.journal who) brought }
    {
        fits(step, self.progress(who), brought)
    }
}

impl<D: Disk> Site<D> {
    /// Whether an actor may make a step now, with frames of which its entry would say this.
    pub fn may_step(&self, who: u32, step: &SiteStep, brought: Brought) -> bool
        requires image { is_some self.now.image ≡ true }
        ensures { result ≡ fits step.now (claim_of self.now.whole.journal who) brought }
    {
        match &self.hosting {
            Hosting::Plain(_) => unreachable!(),
            Hosting::OverDisk(imaged) => imaged.may_step(who, step, brought),
        }
    }
}
