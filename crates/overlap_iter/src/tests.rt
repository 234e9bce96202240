// The queries of trees are tested in a crate above, which has trees. Here is the one that needs none.
use crate::overlapping;
use latch_item::Shot;
use row_pool::Rows;
use span_key::{Key, Span};
use std::test::Fail;

#[test]
fn an_empty_tree_has_no_answers(rt: HostRuntime) -> Result<(), Fail> {
    let span = Span::point(Key::new(rt.alloc(), b"a")?);
    let shot = Shot {
        root: None,
        height: 0,
    };
    let (rows, mut seat, chain) = Rows::new(rt.alloc(), 1)?;
    let found = overlapping(rt.alloc(), &rows, &mut seat, &shot, &span);
    let follows = seat.follows();
    rows.close(seat, chain);
    assert_eq!(rt; found?.len(), 0);
    assert_eq!(rt; follows, 0);
    Ok(())
}
