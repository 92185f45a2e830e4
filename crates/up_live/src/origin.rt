ghost use Rattle.up_live.specs.Origins.{Beginning};

use std::marker::{Model, PhantomData};
use up_disk::Disk;
use up_site::Site;
use up_turn::Chronicle;

/// What never changes of a site. No value of it is made.
pub struct SiteOrigin<D: Disk> {
    pub ghost beginning: { Beginning D },
    disks: PhantomData<D>,
}

impl<D: Disk> Model for SiteOrigin<D> {
    ghost use Rattle.up_live.specs.Origins.{Beginning};
    ghost use Rattle.std.specs.Borrow.{ftrue};

    ghost Value = { Beginning D };

    ghost view = { λ origin. origin.beginning };

    ghost also_owns = { λ _. ftrue };
}

/// A site as the value behind a turn.
pub struct SharedSite<D: Disk> {
    pub(crate) site: Site<D>,
}

impl<D: Disk> Model for SharedSite<D> {
    ghost use Rattle.up_site.specs.Hosted.{Hosted};

    ghost Value = { Hosted D };

    ghost view = { λ shared. shared.site };
}

impl<D: Disk> Chronicle for SharedSite<D> {
    type Origin = SiteOrigin<D>;

    ghost use Rattle.std.specs.Prelude.{reverse};
    ghost use Rattle.up_live.specs.Origins.{beginning_of};

    ghost origin = { λ shared. beginning_of shared };

    ghost list = { λ shared. reverse shared.whole.journal };

    fn count(&self) -> u64 {
        self.site.object().count()
    }
}
