ghost use Rattle.std.specs.Prelude.{◌≡◌, ◌+◌, ◌≤◌, true, length, take, IfOk};
ghost use Rattle.up_model.specs.Size as sizes;
ghost use Rattle.up_model.specs.Attempts.{page_of};
ghost use Rattle.up_model.specs.Value.{there, bytes_from};
ghost use Rattle.up_model.specs.States as states;
ghost use Rattle.up_model.specs.Looks as looks;
ghost use Rattle.up_model.specs.Order.{loose};
ghost use Rattle.up_model.specs.Pages.{count_pages};
ghost use Rattle.up_model.specs.Reply as replies;
ghost use Rattle.up_model.specs.Reply.{within_page};
ghost use Rattle.up_pages.specs.Pages.{page_at, size_of, look_of as look_at};
ghost use Rattle.up_object.specs.Parts.{shown};

use crate::object::Object;
use std::alloc::Global;
use up_num::{Bytes, Memory, PageNo, PageRange, PageState, Piece, RangeSeq};
use up_pages::{Look, PageList};

const PAGE_SIZE: u64 = 4096;

pub(crate) fn is_unclean(look: Look) -> bool
    ensures { result ≡ looks.is_unclean (shown look) }
{
    match look {
        Look::Absent => false,
        Look::Zero(state) => !matches!(state, PageState::Clean),
        Look::Held(state, _) => !matches!(state, PageState::Clean),
    }
}

fn count_unclean(pages: &PageList) -> u32
    ensures { result ≡ count_pages (λ p. looks.is_unclean (shown (look_at (page_at pages.now p)))) 0 (size_of pages.now) }
{
    let mut count = 0;
    for page in 0..pages.size() {
        count += u32::from(is_unclean(pages.look(PageNo(page))));
    }
    count
}

impl Object {
    /// How many pages may be evicted.
    pub fn loose_pages(&self) -> u32
        ensures { result ≡ count_pages (loose self.now.birth self.now.journal) 0 (sizes.size self.now.birth self.now.journal) }
    {
        let loose = self.queues.len();
        let size = self.pages.size();
        prove!(loose <= size as usize);
        loose as u32
    }

    /// How many pages have what isn't written back.
    pub fn unclean_pages(&self) -> u32
        ensures { result ≡ count_pages (states.unclean self.now.birth self.now.journal) 0 (sizes.size self.now.birth self.now.journal) }
    {
        count_unclean(&self.pages)
    }

    /// The maximal runs of unclean pages in a range, all zero pages or none of them: the first `room`, and how many there are in all.
    pub fn unclean_runs(
        &self,
        alloc: Global,
        range: PageRange,
        room: u32,
    ) -> Result<(RangeSeq, u32), Memory>
        requires fits { range.first + range.count ≤ sizes.size self.now.birth self.now.journal }
        ensures list { IfOk result (λ found. found.0 ≡ take room (replies.unclean_runs self.now.birth self.now.journal range)) }
        ensures total { IfOk result (λ found. found.1 ≡ length (replies.unclean_runs self.now.birth self.now.journal range)) }
    {
        self.pages.runs(alloc, range, room)
    }

    /// The bytes of a piece of a page that is there.
    pub fn bytes(&self, alloc: Global, piece: &Piece) -> Result<Bytes, Memory>
        requires within { within_page piece.now.off piece.now.len ≡ true }
        requires present { there self.now.birth self.now.journal (page_of piece.now.off) ≡ true }
        ensures { IfOk result (λ bytes. bytes ≡ bytes_from self.now.birth self.now.journal piece.now.off piece.now.len) }
    {
        let page = piece.off / PAGE_SIZE;
        let at = (piece.off % PAGE_SIZE) as usize;
        let len = piece.len as usize;
        let size = self.pages.size();
        prove!(page < u64::from(size));
        match self.pages.bytes(PageNo(page as u32)) {
            Some(bytes) => Bytes::from_slice(alloc, &bytes[at..at + len]),
            None => Ok(Bytes::from_vec(vec![in alloc; 0; len]?)),
        }
    }
}
