ghost use Rattle.std.specs.Prelude.{◌≡◌, ℕ, ◌<◌, ◌≤◌, ◌==◌, ◌&&◌, cond, length, nat_le, nat_lt, option_map, Some, None};
ghost use Rattle.up_pages.specs.Pages.{page_at, size_of, look_of as look_at};
ghost use Rattle.up_queues.specs.Queue.{find_page};
ghost use Rattle.up_model.specs.Looks as looks;
ghost use Rattle.up_object.specs.Parts.{shown, mark_at};
ghost use Rattle.up_object.specs.Stands.{may_go, keyed_item, item_of};

use crate::marks::{Key, Marks};
use up_asks::Asks;
use up_num::{AskKind, PageNo, PageState};
use up_pages::{Look, PageList};
use up_queues::Queues;

pub(crate) fn is_spare(look: Look) -> bool
    ensures { result ≡ looks.is_spare (shown look) }
{
    match look {
        Look::Held(PageState::Clean, _) => true,
        _ => false,
    }
}

/// The use of a page that may be evicted.
fn key_of(pages: &PageList, marks: &Marks, asks: bool, page: PageNo) -> Option<Key>
    ensures { result ≡ cond (may_go (shown (look_at (page_at pages.now page.0))) (mark_at marks.now page.0) asks) (Some (mark_at marks.now page.0).key) None }
{
    let mark = marks.at(page.0);
    if is_spare(pages.look(page)) && mark.pins == 0 && !mark.always && !asks {
        Some(mark.key)
    } else {
        None
    }
}

/// Gives a page its place in the queues, or takes it out.
fn seat_page(queues: &mut Queues, page: PageNo, key: Option<Key>)
    requires { find_page queues.old.items page.0 ≡ None → length queues.old.items < queues.old.room }
    ensures pages { (p : ℕ) → find_page queues.new.items p ≡ cond (page.0 == p) (option_map (keyed_item page.0) key) (find_page queues.old.items p) }
    ensures room { queues.new.room ≡ queues.old.room }
{
    match key {
        None => queues.drop_page(page),
        Some(key) => queues.seat(page, key.generation, key.used, key.cold),
    }
}

fn seat_at(pages: &PageList, marks: &Marks, asks: &Asks, queues: &mut Queues, page: PageNo)
    requires within { page.0 < size_of pages.now }
    requires wide { size_of pages.now ≤ queues.old.room }
    requires beyond { (p : ℕ) → size_of pages.now ≤ p → find_page queues.old.items p ≡ None }
    ensures pages { (p : ℕ) → find_page queues.new.items p ≡ cond (page.0 == p) (item_of pages.now marks.now asks.now page.0) (find_page queues.old.items p) }
    ensures room { queues.new.room ≡ queues.old.room }
{
    let _ = queues.len();
    let asked = asks.asked(AskKind::Dirty, page);
    let key = key_of(pages, marks, asked, page);
    seat_page(queues, page, key);
}

/// Gives the pages from one on, up to another, their places in the queues, by what is kept of them.
pub(crate) fn settle(
    pages: &PageList,
    marks: &Marks,
    asks: &Asks,
    queues: &mut Queues,
    from: u32,
    to: u32,
)
    requires order { from ≤ to }
    requires bound { to ≤ size_of pages.now }
    requires wide { size_of pages.now ≤ queues.old.room }
    requires beyond { (p : ℕ) → size_of pages.now ≤ p → find_page queues.old.items p ≡ None }
    ensures pages { (p : ℕ) → find_page queues.new.items p ≡ cond (nat_le from p && nat_lt p to) (item_of pages.now marks.now asks.now p) (find_page queues.old.items p) }
    ensures room { queues.new.room ≡ queues.old.room }
{
    for page in from..to {
        seat_at(pages, marks, asks, queues, PageNo(page));
    }
}
