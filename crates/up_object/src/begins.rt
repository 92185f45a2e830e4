//! What a call reads of the begins that got numbers, and of a page that an end is for.
ghost use Rattle.std.specs.Prelude.{◌≡◌, ◌&&◌, true, is_some, Option};
ghost use Rattle.up_num.specs.Span as spans;
ghost use Rattle.up_model.specs.Deeds.{named_by};
ghost use Rattle.up_model.specs.Value.{begun_by};
ghost use Rattle.up_model.specs.States as states;
ghost use Rattle.up_model.specs.Looks as looks;
ghost use Rattle.up_model.specs.Numbers as numbering;
ghost use Rattle.up_model.specs.Reply.{same_flag};
ghost use Rattle.up_object.specs.Numbers as kept;
ghost use Rattle.up_object.specs.Parts.{shown};

use crate::changing::Changing;
use crate::frame_moves::is_zeros;
use crate::marks::Mark;
use crate::numbers::{Begin, Numbers};
use crate::object::Object;
use crate::page_reads::is_unclean;
use up_num::{PageNo, PageRange, PageState};
use up_pages::Look;

impl Object {
    /// The number that the next begin gets, where begins get numbers.
    pub fn next_number(&self) -> u64
        ensures { result ≡ numbering.next_number self.now.journal }
    {
        self.numbers.count()
    }

    /// Whether a begin got this number.
    pub fn has_begun(&self, number: u64) -> bool
        ensures { result ≡ numbering.has_begun self.now.journal number }
    {
        number < self.numbers.count()
    }

    /// Whether a page isn't clean, and an end that names this begin, or none, is for it.
    pub fn is_ended(&self, page: PageNo, of: Option<u64>) -> bool
        requires proper { same_flag self.now.birth.numbered (is_some of) ≡ true }
        ensures { result ≡ (states.unclean self.now.birth self.now.journal page.0 && begun_by self.now.birth self.now.journal (named_by self.now.birth.numbered of) page.0) }
    {
        let look = self.pages.look(page);
        ended_by(look, self.marks.at(page.0), &self.numbers, page.0, of)
    }
}

impl Changing {
    /// Whether the page at the mark isn't clean, and an end that names this begin, or none, is for it.
    pub fn is_ended(&self, of: Option<u64>) -> bool
        requires proper { same_flag self.now.birth.numbered (is_some of) ≡ true }
        ensures { result ≡ (states.unclean self.now.birth self.now.journal self.now.done.mark && begun_by self.now.birth self.now.journal (named_by self.now.birth.numbered of) self.now.done.mark) }
    {
        let look = self.pages.look(PageNo(self.mark));
        ended_by(look, self.marks.at(self.mark), &self.numbers, self.mark, of)
    }
}

/// Whether a page isn't clean, and an end that names this begin, or none, is for it, by what is kept.
fn ended_by(look: Look, mark: Mark, numbers: &Numbers, page: u32, of: Option<u64>) -> bool
    ensures { result ≡ kept.ended_by (shown look) mark numbers.now.begins of page }
{
    is_unclean(look) && is_for(look, mark, numbers, page, of)
}

/// Whether an end that names this begin, or none, is for a page.
fn is_for(look: Look, mark: Mark, numbers: &Numbers, page: u32, of: Option<u64>) -> bool
    ensures { result ≡ kept.is_for (shown look) mark numbers.now.begins of page }
{
    match of {
        None => awaits(look),
        Some(number) => counts(look, mark, numbers.get(number), number, page),
    }
}

/// Whether a page awaits the end of its writeback.
fn awaits(look: Look) -> bool
    ensures { result ≡ looks.awaits (shown look) }
{
    match look {
        Look::Absent => false,
        Look::Zero(state) => matches!(state, PageState::AwaitingClean),
        Look::Held(state, _) => matches!(state, PageState::AwaitingClean),
    }
}

/// Whether the begin of a number counts for a page, and nothing dirtied the page since.
fn counts(look: Look, mark: Mark, begin: Option<Begin>, number: u64, page: u32) -> bool
    ensures { result ≡ kept.counts_by (shown look) mark begin number page }
{
    match begin {
        None => false,
        Some(begin) => {
            covers(begin.range, page)
                && mark.dirtied <= number
                && (!begin.only_zero || is_zeros(look) || number < mark.unzeroed)
        }
    }
}

/// Whether a page is one of a range.
fn covers(range: PageRange, page: u32) -> bool
    ensures { result ≡ spans.covers range page }
{
    range.first <= page && page - range.first < range.count
}
