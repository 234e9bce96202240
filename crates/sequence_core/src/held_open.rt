// What a request captured stays as it was, while others come and go.
ghost use Rattle.std.specs.Prelude.{◌≡◌};
ghost use Rattle.signal_board.specs.Rule.{open_count};
ghost use Rattle.waiter.specs.Says.{id_of};

use crate::desk::Desk;
use crate::sessions::{begin, close_four, end, four_sessions, request};
use latch_model::history::Sizes;
use latch_model::latch::{Access, Latches, Mode, Policy};
use signal_board::board::Pass;
use std::alloc::Global;
use std::process::Abort;
use std::test::Fail;
use waiter::{Checked, Core, Optimist};

const ROUNDS: u32 = 3_000;

const ROWS: u32 = 1_000;

// Many requests of one session begin and end, each with latches on keys of its own round.
fn come_and_go(
    rt: &impl Abort,
    alloc: Global,
    core: &Core,
    desk: &mut Desk,
    pass: &mut Pass,
    access: Access,
)
    requires tables { (desk.old.core ≡ id_of core.now) × (pass.old.table ≡ core.now.board.table) }
    requires idle { open_count pass.old.p.mine ≡ 0 }
    ensures desk { (desk.new.core ≡ desk.old.core) × (desk.new.given ≡ desk.old.given) }
    ensures pass { (pass.new.table ≡ pass.old.table) × (pass.new.p.who ≡ pass.old.p.who) × (open_count pass.new.p.mine ≡ 0) }
{
    for round in 0..ROUNDS {
        let own = request(rt, alloc, access, Policy::Wait, (round % 251) as u8, 5);
        let opened = begin(rt, alloc, core, desk, pass, own, Mode::Acquire);
        end(core, desk, pass, opened);
    }
}

// The latches of a request that reads 16 keys from this one on.
fn reads(rt: &impl Abort, alloc: Global, first: u8) -> Latches {
    match request(rt, alloc, Access::Read, Policy::Wait, first, 16)
        .latches()
        .copy(alloc)
    {
        Ok(latches) => latches,
        Err(_) => panic!(rt; "no memory"),
    }
}

// The request still has captured just the writes of the first one, of which the one on this key comes first.
fn still_meets(rt: &impl Abort, alloc: Global, core: &Core, optimist: &mut Optimist, first: u8)
    requires core { optimist.old.core ≡ id_of core.now }
    ensures same { (optimist.new.core ≡ optimist.old.core) × (optimist.new.r ≡ optimist.old.r) }
{
    match optimist.prerequisites(alloc, core) {
        Ok(ids) => assert_eq!(rt; ids.as_slice(), [1].as_slice()),
        Err(_) => panic!(rt; "no memory"),
    }
    match optimist.check(core, reads(rt, alloc, first)) {
        Checked::Met {
            by,
            place,
            asked: _,
        } => {
            assert_eq!(rt; by, 1);
            assert_eq!(rt; place, 0);
        }
        Checked::Clear | Checked::NotDeclared { index: _, asked: _ } => panic!(rt; "it meets"),
    }
}

#[test]
fn a_snapshot_is_held_open(rt: HostRuntime) -> Result<(), Fail> {
    let alloc = rt.alloc();
    let sizes = Sizes {
        latches: 100,
        lanes: 4,
        rows: ROWS,
    };
    let (core, mut desk, mut one, mut two, mut three, four) = four_sessions(&rt, alloc, sizes);
    let writes = request(&rt, alloc, Access::Write, Policy::Wait, b'a', 16);
    let first = begin(
        &rt,
        alloc,
        &core,
        &mut desk,
        &mut one,
        writes,
        Mode::Acquire,
    );
    let wide = request(&rt, alloc, Access::Read, Policy::Wait, b'a', 16);
    let opened = begin(
        &rt,
        alloc,
        &core,
        &mut desk,
        &mut two,
        wide,
        Mode::Optimistic,
    );
    let mut optimist = opened.optimist();
    still_meets(&rt, alloc, &core, &mut optimist, b'a');
    come_and_go(&rt, alloc, &core, &mut desk, &mut three, Access::Write);
    still_meets(&rt, alloc, &core, &mut optimist, b'a');
    end(&core, &mut desk, &mut one, first);
    come_and_go(&rt, alloc, &core, &mut desk, &mut three, Access::Read);
    still_meets(&rt, alloc, &core, &mut optimist, b'a');
    desk.end(&core, &mut two, optimist.abandon(&core));
    assert_eq!(&rt; desk.metrics().free, ROWS);
    let history = close_four(&rt, alloc, core, desk, one, two, three, four);
    assert_eq!(&rt; history.entries.len(), (4 * ROUNDS + 4) as usize);
    Ok(())
}
