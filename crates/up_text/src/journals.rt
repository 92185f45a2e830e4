use up_model::{Birth, Entries};
use up_num::Bytes;

/// The journal of an object, oldest entry first, with the object's name and what it was born with.
#[derive(Drop)]
pub struct Named {
    pub name: Bytes,
    pub birth: Birth,
    pub entries: Entries,
}
