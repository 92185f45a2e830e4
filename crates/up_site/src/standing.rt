//! How far an actor has come, and its claim.
ghost use Rattle.std.specs.Prelude.{◌≡◌, ℕ, ◌+◌, ◌^◌, ◌<◌, Option, Some, None, true, length, nat_lt};
ghost use Rattle.up_num.specs.Span.{Span};
ghost use Rattle.up_num.specs.declared.pages.PageNo.{PageNo as PageNoValue};
ghost use Rattle.up_bank.specs.declared.kind.FrameKind.TheVariants.{Ordinary as OrdinaryKind};
ghost use Rattle.up_model.specs.Packets.{sent, taken};
ghost use Rattle.up_model.specs.Roles.{detached};
ghost use Rattle.up_object.specs.Parts.{bank_of};
ghost use Rattle.up_object.specs.Change.{AllAre, AllOwn};
ghost use Rattle.up_object.specs.OneCall.{frames_of};
ghost use Rattle.up_claims.specs.Sited.{is_denied};
ghost use Rattle.up_claims.specs.Claimed.{claim_of, holds};
ghost use Rattle.up_site.specs.declared.stage.Stage.TheVariants.{Fetched as FetchedStage};
ghost use Rattle.up_site.specs.declared.stage.Stage.TheVariants.{Begun as BegunStage};
ghost use Rattle.up_site.specs.declared.tours.Progress.TheVariants as progress;
ghost use Rattle.up_site.specs.Stages.{stage_at};
ghost use Rattle.up_site.specs.Places.{progress_at, claim_as, IsRead, IsCopied};

use crate::imaged::Imaged;
use crate::tours::{Progress, progress_of};
use up_disk::Disk;
use up_num::{AskKind, PageNo};
use up_object::FramesIn;

impl<D: Disk> Imaged<D> {
    // How far an actor has come: its claim by the journal, and its stage.
    pub(crate) fn progress(&self, who: u32) -> Progress
        ensures value { result ≡ progress_at (stage_at self.now.tours who) }
        ensures claim { claim_of self.now.whole.journal who ≡ claim_as result }
        ensures free { result ≡ progress.Free → stage_at self.now.tours who ≡ None }
        ensures read { (page : PageNoValue) → result ≡ progress.Read page → IsRead self.now.tours who page }
        ensures unread { (page : PageNoValue) → result ≡ progress.Unread page
            → stage_at self.now.tours who ≡ Some (FetchedStage page None) }
        ensures begun { (range : Span) (number : Option ℕ) → result ≡ progress.Begun range number
            → stage_at self.now.tours who ≡ Some (BegunStage range number) }
        ensures copied { (range : Span) (number : Option ℕ) (stored : ℕ) → result ≡ progress.Copied range
            number stored
            → IsCopied self.now.tours who range number stored }
    {
        progress_of(&self.tours, who)
    }

    // An actor without a claim has no stage.
    pub(crate) fn stands_free(&self, who: u32)
        requires none { claim_of self.now.whole.journal who ≡ None }
        ensures { stage_at self.now.tours who ≡ None }
    {
        let _ = progress_of(&self.tours, who);
    }

    // A page that an actor claims lies within the object.
    pub(crate) fn stands_within(&self, who: u32, page: PageNo)
        requires held { holds (claim_of self.now.whole.journal who) page.0 ≡ true }
        ensures { page.0 + 1 < 2 ^ 32 }
    {
        let size = self.object.size();
        prove!(page.0 < size);
    }

    // Frames of the object's ordinary bank are of one of its two.
    pub(crate) fn own_frames(&self, frames: &FramesIn)
        requires own { AllAre (bank_of self.now.whole.banks OrdinaryKind) (frames_of frames.now) }
        ensures { AllOwn self.now.whole.banks (frames_of frames.now) }
    {
        let _ = self.object.size();
    }

    // Whether a packet is left to take.
    pub(crate) fn has_packet(&self) -> bool
        ensures { result ≡ nat_lt (taken self.now.whole.journal) (length (sent self.now.whole.birth
            self.now.whole.journal)) }
    {
        self.object.next_packet().is_some()
    }

    // Whether nobody waits on the object any more.
    pub(crate) fn is_detached(&self) -> bool
        ensures { result ≡ detached self.now.whole.birth self.now.whole.journal }
    {
        self.object.detached()
    }

    // A page that is to be denied lies within the object.
    pub(crate) fn stands_denied(&self, kind: AskKind, page: PageNo)
        requires denied { is_denied self.now.whole.birth self.now.whole.journal kind page.0 ≡ true }
        ensures { page.0 + 1 < 2 ^ 32 }
    {
        let _ = self.object.size();
    }
}
