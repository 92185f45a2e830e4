use up_num::{PageNo, PageRange};

/// What an actor has claimed of an object, and how far it has come with it.
#[derive(Clone, Copy, PartialEq, Eq, Debug)]
pub enum Claim {
    /// A page that is fetched, and whether its block was read well.
    Fetch {
        page: PageNo,
        ok: bool,
    },
    /// Pages that are written back: under which number it has begun, where it has one, whether they were copied,
    /// and how many of them were stored.
    Back {
        range: PageRange,
        number: Option<u64>,
        copied: bool,
        stored: u32,
    },
}
