/// Consecutive pages of one set or one test.
#[derive(Clone, Copy, PartialEq, Eq, Debug)]
pub struct Run {
    pub first: u32,
    pub count: u32,
}

/// Consecutive pages that are all of one of two kinds.
#[derive(Clone, Copy, PartialEq, Eq, Debug)]
pub struct KindRun {
    pub first: u32,
    pub count: u32,
    pub kind: bool,
}
