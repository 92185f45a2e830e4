use crate::imaged::Imaged;
use up_disk::Disk;
use up_object::Object;

// An object alone, or over its disk.
pub(crate) enum Hosting<D: Disk> {
    Plain(Object),
    OverDisk(Imaged<D>),
}
