ghost use Rattle.std.specs.Prelude.{◌≡◌, ◌^◌, ◌<◌, length, vec_len, IfOk};

use std::alloc::Global;
use std::test::Fail;
use up_evictor::{Herd, Level, Levels, Reclaim, relieve};
use up_num::{Memory, PageNo, PageSeq};

// Objects that have so many old pages and so many others.
#[derive(Drop)]
struct Pen {
    old: Vec<u32>,
    young: Vec<u32>,
    reclaims: Vec<Reclaim>,
    ghost same: { vec_len old ≡ vec_len young },
    ghost few: { vec_len old < 2 ^ 32 },
}

impl Herd for Pen {
    ghost use Rattle.std.specs.Prelude.{ℕ, vec_len, reverse};

    ghost Origin = { ℕ };

    ghost origin = { λ pen. vec_len pen.old };

    ghost size = { λ pen. vec_len pen.old };

    ghost reclaims = { λ pen. reverse pen.reclaims.items };

    fn objects(&self) -> u32 {
        self.old.len() as u32
    }

    fn evict(
        &mut self,
        alloc: Global,
        object: u32,
        limit: u32,
        max: u32,
    ) -> Result<PageSeq, Memory> {
        let place = object as usize;
        let has = if limit >= 4 {
            self.old[place]
        } else {
            self.young[place]
        };
        let given = max.min(has);
        let pages = pages_of(alloc, given)?;
        let reclaim = Reclaim {
            object,
            limit,
            max,
            given,
        };
        if self.reclaims.push(reclaim).is_err() {
            return Err(Memory {});
        }
        if limit >= 4 {
            self.old[place] = has - given;
        } else {
            self.young[place] = has - given;
        }
        Ok(pages)
    }
}

// So many pages.
fn pages_of(alloc: Global, count: u32) -> Result<PageSeq, Memory>
    ensures { IfOk result (λ pages. length pages ≡ count) }
{
    let mut pages = PageSeq::new(alloc);
    for page in 0..count {
        if pages.push(PageNo(page)).is_err() {
            return Err(Memory {});
        }
    }
    Ok(pages)
}

// Three objects.
fn make_pen(alloc: Global, old: [u32; 3], young: [u32; 3]) -> Result<Pen, Memory> {
    let old = old.to_vec(alloc)?;
    let young = young.to_vec(alloc)?;
    Ok(Pen {
        old,
        young,
        reclaims: Vec::new(alloc),
    })
}

fn one_reclaim(object: u32, limit: u32, max: u32, given: u32) -> Reclaim {
    Reclaim {
        object,
        limit,
        max,
        given,
    }
}

#[test]
fn levels_are_told_by_free_frames(rt: HostRuntime) -> Result<(), Fail> {
    let levels = Levels {
        warn: 16,
        critical: 8,
    };
    assert_eq!(rt; levels.level(16), Level::Normal);
    assert_eq!(rt; levels.level(15), Level::Warning);
    assert_eq!(rt; levels.level(8), Level::Warning);
    assert_eq!(rt; levels.level(7), Level::Critical);
    assert_eq!(rt; levels.level(1), Level::Critical);
    assert_eq!(rt; levels.level(0), Level::Empty);
    Ok(())
}

#[test]
fn old_pages_go_first_and_then_others(rt: HostRuntime) -> Result<(), Fail> {
    let mut pen = make_pen(rt.alloc(), [2, 0, 1], [1, 9, 9])?;
    let relief = relieve(rt.alloc(), &mut pen, 6, Level::Empty)?;
    assert_eq!(rt; (relief.freed, relief.short), (6, false));
    let reclaims = [
        one_reclaim(0, 4, 6, 2),
        one_reclaim(1, 4, 4, 0),
        one_reclaim(2, 4, 4, 1),
        one_reclaim(0, 0, 3, 1),
        one_reclaim(1, 0, 2, 2),
    ];
    assert!(rt; pen.reclaims.as_slice() == reclaims.as_slice());
    Ok(())
}

#[test]
fn a_warning_takes_old_pages_alone(rt: HostRuntime) -> Result<(), Fail> {
    let mut pen = make_pen(rt.alloc(), [2, 0, 1], [1, 9, 9])?;
    let none = relieve(rt.alloc(), &mut pen, 6, Level::Normal)?;
    assert_eq!(rt; (none.freed, none.short, pen.reclaims.len()), (0, true, 0));
    let relief = relieve(rt.alloc(), &mut pen, 6, Level::Warning)?;
    assert_eq!(rt; (relief.freed, relief.short), (3, true));
    let reclaims = [
        one_reclaim(0, 4, 6, 2),
        one_reclaim(1, 4, 4, 0),
        one_reclaim(2, 4, 4, 1),
    ];
    assert!(rt; pen.reclaims.as_slice() == reclaims.as_slice());
    Ok(())
}
