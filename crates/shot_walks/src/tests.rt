// The waiting order. Walks are tested in a crate above, which has trees.
use crate::order_of;
use hlc_stamp::Stamp;
use latch_model::latch::{Access, Latch};
use span_key::{Key, KeyFault, Span};
use std::alloc::Global;
use std::test::Fail;

/// A latch on one key.
fn latch(alloc: Global, access: Access, key: &[u8; 2]) -> Result<Latch, KeyFault> {
    Ok(Latch {
        access,
        span: Span::point(Key::new(alloc, key)?),
        stamp: Stamp::EMPTY,
    })
}

#[test]
fn global_before_local_and_reads_before_writes(rt: HostRuntime) -> Result<(), Fail> {
    let latches = [
        latch(rt.alloc(), Access::Write, b"\x01a")?,
        latch(rt.alloc(), Access::Write, b"ab")?,
        latch(rt.alloc(), Access::Read, b"\x01a")?,
        latch(rt.alloc(), Access::Read, b"ab")?,
        latch(rt.alloc(), Access::Write, b"aa")?,
    ];
    let order = order_of(&latches);
    assert!(rt; order.as_slice() == [3, 1, 4, 2, 0].as_slice());
    Ok(())
}
