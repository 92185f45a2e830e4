use crate::stage::Tour;
use std::marker::Model;
use std::snapshot::Snapshot;
use up_disk::Disk;
use up_object::Object;

// An object over its disk, and the stage of each actor that has a claim. It holds frames, so it has to be
// ended.
pub(crate) struct Imaged<D: Disk> {
    pub(crate) object: Object,
    pub(crate) disk: D,
    pub(crate) start: Snapshot<D>,
    pub(crate) tours: Vec<Tour>,
}

impl<D: Disk> Model for Imaged<D> {
    ghost use Rattle.up_site.specs.Sited.{Sited};
    ghost use Rattle.up_site.specs.Standing.{SiteStands, telling};

    ghost Value = { Sited D };

    ghost view = { λ o. record {
      whole = o.object;
      disk = o.disk;
      start = o.start.value;
      tours =
          o.tours.items;
    } };

    ghost invariant = { λ o. SiteStands (telling D.tells D.count D.blocks D.faults D.lasts D.time D.leaves)
        o.object.birth o.object.journal o.start.value o.disk o.tours.items };
}
