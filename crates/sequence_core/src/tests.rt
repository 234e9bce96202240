// Desks of a few sessions.
use crate::desk::Desk;
use crate::fault::{NewFault, SeqFault, Which};
use crate::limits::bad_size;
use crate::metrics::Counts;
use crate::sessions::{begin, close, end, refused, request, two_sessions};
use latch_model::history::Sizes;
use latch_model::latch::{Access, Mode, Policy};
use std::alloc::Global;
use std::process::Abort;
use std::test::Fail;

// The first of the sizes that is out of bounds.
#[test]
fn sizes(rt: HostRuntime) -> Result<(), Fail> {
    let rows = [
        (0, 4, 208, Some(Which::Latches)),
        (8_191, 4, 208, Some(Which::Latches)),
        (1, 257, 208, Some(Which::Lanes)),
        (1, 0, 208, Some(Which::Lanes)),
        (1, 1, 207, Some(Which::Rows)),
        (8_190, 256, 4_194_305, Some(Which::Rows)),
        (8_190, 256, 4_194_304, None),
        (1, 1, 208, None),
    ];
    for (latches, lanes, rows, which) in rows {
        let sizes = Sizes {
            latches,
            lanes,
            rows,
        };
        assert_eq!(&rt; bad_size(&sizes), which);
    }
    Ok(())
}

// At the limit there is no place for one more latch but for a look's, and one below it there is.
#[test]
fn latches_full(rt: HostRuntime) -> Result<(), Fail> {
    full(&rt, rt.alloc(), 16, 16);
    full(&rt, rt.alloc(), 1, 1);
    Ok(())
}

fn full(rt: &impl Abort, alloc: Global, limit: u32, count: u8) {
    let sizes = Sizes {
        latches: limit,
        lanes: 2,
        rows: 500,
    };
    let (core, mut desk, mut one, mut two) = two_sessions(rt, alloc, sizes);
    let many = request(rt, alloc, Access::Write, Policy::Wait, b'a', count);
    let single = request(rt, alloc, Access::Write, Policy::Wait, b'z', 1);
    let first = begin(rt, alloc, &core, &mut desk, &mut one, many, Mode::Acquire);
    let (fault, single) = refused(rt, alloc, &core, &mut desk, &mut two, single, Mode::Acquire);
    assert_eq!(rt;
        fault,
        SeqFault::LatchesFull {
            held: limit,
            asked: 1
        }
    );
    let (fault, single) = refused(
        rt,
        alloc,
        &core,
        &mut desk,
        &mut two,
        single,
        Mode::Optimistic,
    );
    assert_eq!(rt;
        fault,
        SeqFault::LatchesFull {
            held: limit,
            asked: 1
        }
    );
    let look = begin(rt, alloc, &core, &mut desk, &mut two, single, Mode::Look);
    assert_eq!(rt; look.id(), 2);
    end(&core, &mut desk, &mut two, look);
    end(&core, &mut desk, &mut one, first);
    let single = request(rt, alloc, Access::Write, Policy::Wait, b'z', 1);
    let last = begin(
        rt,
        alloc,
        &core,
        &mut desk,
        &mut two,
        single,
        Mode::Optimistic,
    );
    end(&core, &mut desk, &mut two, last);
    let history = close(rt, alloc, core, desk, one, two);
    assert_eq!(rt; history.entries.len(), 6);
}

// The counts of a scope.
fn counts(read: u32, pending: u32, write: u32) -> Counts {
    Counts {
        read,
        pending,
        write,
    }
}

// Reads are pending until a later request declares a write in their scope, also after that has ended.
#[test]
fn metrics(rt: HostRuntime) -> Result<(), Fail> {
    let alloc = rt.alloc();
    let sizes = Sizes {
        latches: 100,
        lanes: 2,
        rows: 500,
    };
    let (core, mut desk, mut one, mut two) = two_sessions(&rt, alloc, sizes);
    let reads = request(&rt, alloc, Access::Read, Policy::Wait, b'a', 16);
    let first = begin(&rt, alloc, &core, &mut desk, &mut one, reads, Mode::Acquire);
    assert_eq!(&rt; desk.metrics().global, counts(16, 16, 0));
    assert_eq!(&rt; desk.metrics().local, counts(0, 0, 0));
    assert_eq!(&rt; desk.metrics().free, 500 - 16 * 13);
    let write = request(&rt, alloc, Access::Write, Policy::Wait, b'z', 1);
    let second = begin(&rt, alloc, &core, &mut desk, &mut two, write, Mode::Acquire);
    assert_eq!(&rt; desk.metrics().global, counts(16, 0, 1));
    end(&core, &mut desk, &mut two, second);
    assert_eq!(&rt; desk.metrics().global, counts(16, 0, 0));
    let local = request(&rt, alloc, Access::Read, Policy::Wait, 1, 1);
    let third = begin(
        &rt,
        alloc,
        &core,
        &mut desk,
        &mut two,
        local,
        Mode::Optimistic,
    );
    assert_eq!(&rt; desk.metrics().local, counts(1, 1, 0));
    end(&core, &mut desk, &mut two, third);
    end(&core, &mut desk, &mut one, first);
    assert_eq!(&rt; desk.metrics().global, counts(0, 0, 0));
    assert_eq!(&rt; desk.metrics().free, 500);
    let _ = close(&rt, alloc, core, desk, one, two);
    Ok(())
}

// Where rows are out no request begins but a look, and when those that have them end it does.
#[test]
fn rows_out(rt: HostRuntime) -> Result<(), Fail> {
    let alloc = rt.alloc();
    let sizes = Sizes {
        latches: 100,
        lanes: 2,
        rows: 208,
    };
    let (core, mut desk, mut one, mut two) = two_sessions(&rt, alloc, sizes);
    let reads = request(&rt, alloc, Access::Read, Policy::Wait, b'a', 16);
    let first = begin(&rt, alloc, &core, &mut desk, &mut one, reads, Mode::Acquire);
    assert_eq!(&rt; desk.metrics().global, counts(16, 16, 0));
    assert_eq!(&rt; desk.metrics().free, 0);
    let single = request(&rt, alloc, Access::Read, Policy::Wait, b'z', 1);
    let (fault, single) = refused(
        &rt,
        alloc,
        &core,
        &mut desk,
        &mut two,
        single,
        Mode::Acquire,
    );
    assert_eq!(&rt; fault, SeqFault::RowsOut { free: 0, need: 13 });
    assert_eq!(&rt; desk.metrics().free, 0);
    let look = begin(&rt, alloc, &core, &mut desk, &mut two, single, Mode::Look);
    end(&core, &mut desk, &mut two, look);
    end(&core, &mut desk, &mut one, first);
    assert_eq!(&rt; desk.metrics().free, 208);
    let single = request(&rt, alloc, Access::Read, Policy::Wait, b'z', 1);
    let last = begin(
        &rt,
        alloc,
        &core,
        &mut desk,
        &mut two,
        single,
        Mode::Acquire,
    );
    assert_eq!(&rt; desk.metrics().free, 195);
    end(&core, &mut desk, &mut two, last);
    assert_eq!(&rt; desk.metrics().free, 208);
    let history = close(&rt, alloc, core, desk, one, two);
    assert_eq!(&rt; history.entries.len(), 6);
    Ok(())
}

// A desk of one lane has one pass, whose number is 1, and no entry at first.
#[test]
fn one_lane(rt: HostRuntime) -> Result<(), Fail> {
    let sizes = Sizes {
        latches: 16,
        lanes: 1,
        rows: 500,
    };
    let (core, desk, passes) = match Desk::new(rt.alloc(), sizes) {
        Ok(made) => made,
        Err(_) => panic!(&rt; "the sizes are good"),
    };
    assert_eq!(&rt; passes.len(), 1);
    assert_eq!(&rt; passes[0].who(), 1);
    let history = desk.close(core, passes);
    assert_eq!(&rt; history.entries.len(), 0);
    Ok(())
}

// A desk isn't made of sizes that are out of bounds.
#[test]
fn bad_sizes(rt: HostRuntime) -> Result<(), Fail> {
    let sizes = Sizes {
        latches: 1,
        lanes: 257,
        rows: 208,
    };
    match Desk::new(rt.alloc(), sizes) {
        Ok(_made) => panic!(&rt; "the lanes are too many"),
        Err(fault) => assert_eq!(&rt;
            fault,
            NewFault::BadSizes {
                which: Which::Lanes
            }
        ),
    }
    Ok(())
}
