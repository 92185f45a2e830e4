/// What a bank's frames are for. A loaned frame stands under a page only until its pager wants it back.
#[derive(Clone, Copy, PartialEq, Eq, Debug)]
pub enum FrameKind {
    Ordinary,
    Loaned,
}
