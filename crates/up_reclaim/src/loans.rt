ghost use Rattle.std.specs.Prelude.{◌≡◌, ℕ, ◌+◌, ◌<◌, ◌≤◌, ◌^◌, ◌++◌, ◌∷◌, [], cond, length, map, slice_index_or, IfOk, OnOk};
ghost use Rattle.up_num.specs.Pages.{page_number};
ghost use Rattle.up_model.specs.Size.{size};
ghost use Rattle.up_model.specs.Reply as replies;
ghost use Rattle.up_reclaim.specs.Loans as loans;
ghost use Rattle.up_reclaim.specs.Loans.{fate_at, loan_test};
ghost use Rattle.up_reclaim.specs.declared.loans.Fate.TheVariants.{Stays as StaysFate};

use std::alloc::Global;
use up_model::Reply;
use up_num::{Memory, PageNo, PageSeq};
use up_object::Object;

/// What becomes of a page when all loaned frames are taken away.
#[derive(Clone, Copy)]
pub(crate) enum Fate {
    Stays,
    /// It gets another frame.
    Moves,
    Goes,
}

fn fate_of(object: &Object, page: PageNo) -> Fate
    ensures { result ≡ fate_at object.now.birth object.now.journal page.0 }
{
    if !object.is_loaned(page) {
        return Fate::Stays;
    }
    if object.is_loose(page) {
        Fate::Goes
    } else {
        Fate::Moves
    }
}

/// What becomes of each page.
pub(crate) fn fates_of(object: &Object, alloc: Global) -> Result<Vec<Fate>, Memory>
    ensures size { IfOk result (λ fates. length fates.items ≡ size object.now.birth object.now.journal) }
    ensures each { IfOk result (λ fates. (p : ℕ) → p < size object.now.birth object.now.journal → slice_index_or fates.items p StaysFate ≡ fate_at object.now.birth object.now.journal p) }
{
    let pages = object.size();
    let mut fates = Vec::with_capacity(alloc, pages as usize)?;
    for page in 0..pages {
        fates.push_reserved(fate_of(object, PageNo(page)));
    }
    Ok(fates)
}

/// Whether a page has a loaned frame and goes, or gets another one.
fn leaves(object: &Object, goes: bool, page: PageNo) -> bool
    ensures { result ≡ loan_test object.now.birth object.now.journal goes page.0 }
{
    if goes {
        object.is_loaned(page) && object.is_loose(page)
    } else {
        object.is_loaned(page) && !object.is_loose(page)
    }
}

fn put_where(found: &mut PageSeq, test: bool, page: PageNo) -> Result<(), Memory>
    ensures { OnOk result (found.new ≡ cond test (found.old ++ page ∷ []) found.old) }
{
    if test {
        found.push(page).map_err(|failed| failed.0)?;
    }
    Ok(())
}

/// The pages in loaned frames that go, or those that get another one, rising.
#[tactic(auto, using(crate::proofs::PageLists::number_step))]
fn loans_of(object: &Object, alloc: Global, goes: bool) -> Result<PageSeq, Memory>
    ensures { IfOk result (λ pages. pages ≡ map page_number (replies.pages_where object.now.birth object.now.journal (loan_test object.now.birth object.now.journal goes))) }
{
    let mut found = PageSeq::new(alloc);
    for page in 0..object.size() {
        let passes = leaves(object, goes, PageNo(page));
        put_where(&mut found, passes, PageNo(page))?;
    }
    Ok(found)
}

/// How many pages in loaned frames get another one.
#[tactic(auto, using(crate::proofs::PageLists::firm_step))]
pub(crate) fn count_firm(object: &Object) -> u32
    ensures { result ≡ length (replies.pages_where object.now.birth object.now.journal (replies.loaned_firm object.now.birth object.now.journal)) }
{
    let mut found = 0;
    for page in 0..object.size() {
        found = count_where(found, leaves(object, false, PageNo(page)));
    }
    found
}

/// One more where the test holds.
fn count_where(found: u32, test: bool) -> u32
    requires { found + 1 < 2 ^ 32 }
    ensures value { result ≡ cond test (found + 1) found }
    ensures few { result ≤ found + 1 }
{
    if test { found + 1 } else { found }
}

/// The reply that tells which pages get another frame and which go.
pub(crate) fn vacated_reply(object: &Object, alloc: Global) -> Result<Reply, Memory>
    ensures { IfOk result (λ reply. reply ≡ loans.vacated object.now.birth object.now.journal) }
{
    let moved = loans_of(object, alloc, false)?;
    let evicted = loans_of(object, alloc, true)?;
    Ok(Reply::Vacated { moved, evicted })
}
