/// Who acts on the object, whether a detach was accepted, and whether the object was changed since the last reset.
#[derive(Clone, Copy, PartialEq, Eq, Debug)]
pub struct Tally {
    pub users: u32,
    pub pagers: u32,
    pub detached: bool,
    pub modified: bool,
}
