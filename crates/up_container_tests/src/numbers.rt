use std::test::Fail;
use up_num::{Bytes, Items, PageNo, PageSeq, Piece, pieces_of};

#[test]
fn items_come_back_in_order(rt: HostRuntime) -> Result<(), Fail> {
    let mut pages = PageSeq::new(rt.alloc());
    assert!(rt; pages.is_empty());
    for page in [7, 2, 9] {
        assert!(rt; pages.push(PageNo(page)).is_ok());
    }
    assert_eq!(rt; pages.len(), 3);
    assert_eq!(rt; *pages.at(1), PageNo(2));
    assert_eq!(rt; pages.pop(), Some(PageNo(9)));
    assert!(rt; pages.as_slice() == [PageNo(7), PageNo(2)].as_slice());
    Ok(())
}

#[test]
fn copies_have_the_same_items(rt: HostRuntime) -> Result<(), Fail> {
    let bytes = Bytes::from_slice(rt.alloc(), b"page")?;
    let copy = bytes.copy(rt.alloc())?;
    assert!(rt; copy.as_slice() == b"page".as_slice());
    let moved = Items::from_vec(b"held".to_vec(rt.alloc())?);
    assert!(rt; moved.as_slice() == b"held".as_slice());
    Ok(())
}

#[test]
fn an_access_is_cut_where_its_pages_end(rt: HostRuntime) -> Result<(), Fail> {
    let mut pieces = pieces_of(4000, 5000);
    assert_eq!(rt; pieces.next(), Some(Piece { off: 4000, len: 96 }));
    assert_eq!(rt;
        pieces.next(),
        Some(Piece {
            off: 4096,
            len: 4096
        })
    );
    assert_eq!(rt;
        pieces.next(),
        Some(Piece {
            off: 8192,
            len: 808
        })
    );
    assert_eq!(rt; pieces.next(), None);
    assert_eq!(rt; pieces_of(4096, 0).next(), None);
    Ok(())
}
