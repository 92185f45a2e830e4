use crate::journals::Named;
use crate::versioned::Journals;

/// The journals read so far, and how many bytes their byte lists spell, those of an open journal too.
#[derive(Drop)]
pub struct Part {
    pub journals: Journals,
    pub bytes: u32,
}

/// What the next line has to be, and what the lines before it said.
#[derive(Drop)]
pub enum Section {
    Header,
    /// A journal begins, or the text ends.
    Between(Part),
    /// A journal goes on or ends.
    Within(Part, Named),
    Ended(Journals),
}
