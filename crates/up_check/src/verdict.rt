use up_model::Reply;

/// Whether some journals are legal.
#[derive(Debug, Drop)]
pub enum Verdict {
    /// All of them are.
    Legal,
    /// The first entry at fault, counted from 0 in its journal, as the journal is among the journals. Where the entry's call
    /// is proper this is the reply that was expected.
    First {
        journal: u32,
        entry: u64,
        expected: Option<Reply>,
    },
}
