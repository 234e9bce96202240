// For tests: a desk of two sessions, and what they do.
ghost use Rattle.std.specs.Prelude.{◌≡◌, ◌<◌, ◌≤◌, ◌+◌, [], ◌∷◌, ◌++◌, vec_len, vec_capacity};
ghost use Rattle.latch_model.specs.Legal.{IsLegal};
ghost use Rattle.waiter.specs.Says.{id_of};
ghost use Rattle.signal_board.specs.Rule.{open_count};

use crate::desk::{Desk, SeqRefusal};
use crate::fault::SeqFault;
use hlc_stamp::Stamp;
use latch_model::history::{Fault, History, Sizes};
use latch_model::latch::{Access, Latch, Latches, Mode, Policy};
use latch_model::request::Request;
use signal_board::board::Pass;
use span_key::{Key, Span};
use std::alloc::{AllocFailed, Global};
use std::process::Abort;
use waiter::{Core, Ending, Opened};

/// A request of as many latches on keys of one byte, from this key on.
pub(crate) fn request(
    rt: &impl Abort,
    alloc: Global,
    access: Access,
    policy: Policy,
    first: u8,
    count: u8,
) -> Request {
    let mut list = Vec::new(alloc);
    for i in 0..count {
        let Ok(key) = Key::new(alloc, &[first.wrapping_add(i)]) else {
            panic!(rt; "no key")
        };
        let Ok(()) = list.push(Latch {
            access,
            span: Span::point(key),
            stamp: Stamp::EMPTY,
        }) else {
            panic!(rt; "no memory")
        };
    }
    let Ok(latches) = Latches::new(list) else {
        panic!(rt; "they are few")
    };
    let Ok(request) = Request::new(alloc, 1, policy, latches) else {
        panic!(rt; "no memory")
    };
    request
}

/// A desk of two sessions, neither of which has an open request.
pub(crate) fn two_sessions(rt: &impl Abort, alloc: Global, sizes: Sizes) -> (Core, Desk, Pass, Pass)
    requires { sizes.lanes ≡ 2 }
    ensures desk { (result.1.core ≡ id_of result.0) × (result.1.given ≡ 2) }
    ensures one { (result.2.table ≡ result.0.board.table) × (result.2.p.who ≡ 1) × (open_count result.2.p.mine ≡ 0) }
    ensures two { (result.3.table ≡ result.0.board.table) × (result.3.p.who ≡ 2) × (open_count result.3.p.mine ≡ 0) }
{
    let (core, desk, mut passes) = match Desk::new(alloc, sizes) {
        Ok(made) => made,
        Err(_) => panic!(rt; "the sizes are good"),
    };
    let two = taken(rt, &mut passes);
    let one = taken(rt, &mut passes);
    assert!(rt; passes.is_empty());
    passes.destroy_empty();
    (core, desk, one, two)
}

/// A desk of four sessions, none of which has an open request.
pub(crate) fn four_sessions(
    rt: &impl Abort,
    alloc: Global,
    sizes: Sizes,
) -> (Core, Desk, Pass, Pass, Pass, Pass)
    requires { sizes.lanes ≡ 4 }
    ensures desk { (result.1.core ≡ id_of result.0) × (result.1.given ≡ 4) }
    ensures one { (result.2.table ≡ result.0.board.table) × (result.2.p.who ≡ 1) × (open_count result.2.p.mine ≡ 0) }
    ensures two { (result.3.table ≡ result.0.board.table) × (result.3.p.who ≡ 2) × (open_count result.3.p.mine ≡ 0) }
    ensures three { (result.4.table ≡ result.0.board.table) × (result.4.p.who ≡ 3) × (open_count result.4.p.mine ≡ 0) }
    ensures four { (result.5.table ≡ result.0.board.table) × (result.5.p.who ≡ 4) × (open_count result.5.p.mine ≡ 0) }
{
    let (core, desk, mut passes) = match Desk::new(alloc, sizes) {
        Ok(made) => made,
        Err(_) => panic!(rt; "the sizes are good"),
    };
    let four = taken(rt, &mut passes);
    let three = taken(rt, &mut passes);
    let two = taken(rt, &mut passes);
    let one = taken(rt, &mut passes);
    assert!(rt; passes.is_empty());
    passes.destroy_empty();
    (core, desk, one, two, three, four)
}

/// A request begins, for which there is place.
pub(crate) fn begin(
    rt: &impl Abort,
    alloc: Global,
    core: &Core,
    desk: &mut Desk,
    pass: &mut Pass,
    request: Request,
    mode: Mode,
) -> Opened
    requires tables { (desk.old.core ≡ id_of core.now) × (pass.old.table ≡ core.now.board.table) }
    requires idle { open_count pass.old.p.mine ≡ 0 }
    ensures desk { (desk.new.core ≡ desk.old.core) × (desk.new.given ≡ desk.old.given) }
    ensures pass { (pass.new.table ≡ pass.old.table) × (pass.new.p.who ≡ pass.old.p.who) }
    ensures opened { (result.core ≡ id_of core.now) × (result.r.who ≡ pass.old.p.who) × (result.r.mode ≡ mode) }
{
    match desk.begin(alloc, core, pass, request, mode) {
        Ok(opened) => opened,
        Err(_) => panic!(rt; "there is place"),
    }
}

/// A request doesn't begin. The reason is answered with it.
pub(crate) fn refused(
    rt: &impl Abort,
    alloc: Global,
    core: &Core,
    desk: &mut Desk,
    pass: &mut Pass,
    request: Request,
    mode: Mode,
) -> (SeqFault, Request)
    requires tables { (desk.old.core ≡ id_of core.now) × (pass.old.table ≡ core.now.board.table) }
    requires idle { open_count pass.old.p.mine ≡ 0 }
    ensures desk { desk.new ≡ desk.old }
    ensures pass { (pass.new.table ≡ pass.old.table) × (pass.new.p.who ≡ pass.old.p.who) × (pass.new.p.mine ≡ pass.old.p.mine) }
{
    match desk.begin(alloc, core, pass, request, mode) {
        Ok(_opened) => panic!(rt; "there is no place"),
        Err(SeqRefusal { fault, request }) => (fault, request),
    }
}

/// The request ends at once, without a grant.
pub(crate) fn end(core: &Core, desk: &mut Desk, pass: &mut Pass, opened: Opened)
    requires tables { (desk.old.core ≡ id_of core.now) × (pass.old.table ≡ core.now.board.table) × (opened.core ≡ id_of core.now) }
    requires session { opened.r.who ≡ pass.old.p.who }
    ensures desk { (desk.new.core ≡ desk.old.core) × (desk.new.given ≡ desk.old.given) }
    ensures pass { (pass.new.table ≡ pass.old.table) × (pass.new.p.who ≡ pass.old.p.who) × (open_count pass.new.p.mine ≡ 0) }
{
    let ending = never(core, opened);
    desk.end(core, pass, ending);
}

// A request that is never granted.
fn never(core: &Core, opened: Opened) -> Ending
    requires { opened.core ≡ id_of core.now }
    ensures { (result.core ≡ opened.core) × (result.r ≡ opened.r) }
{
    match opened.mode() {
        Mode::Optimistic => opened.optimist().abandon(core),
        Mode::Acquire | Mode::Look => {
            let (ending, _) = opened.waiting().abandon(core, Fault::None);
            ending
        }
    }
}

/// The desk ends with both sessions. Its history is legal.
pub(crate) fn close(
    rt: &impl Abort,
    alloc: Global,
    core: Core,
    desk: Desk,
    one: Pass,
    two: Pass,
) -> History
    requires desk { (desk.core ≡ id_of core) × (desk.given ≡ 2) }
    requires one { (one.table ≡ core.board.table) × (one.p.who ≡ 1) × (open_count one.p.mine ≡ 0) }
    requires two { (two.table ≡ core.board.table) × (two.p.who ≡ 2) × (open_count two.p.mine ≡ 0) }
    ensures { IsLegal result.entries result.sizes }
{
    let mut passes = room(rt, alloc, 2);
    put(&mut passes, one);
    put(&mut passes, two);
    desk.close(core, passes)
}

// The four passes in a list.
fn in_a_list(
    rt: &impl Abort,
    alloc: Global,
    one: Pass,
    two: Pass,
    three: Pass,
    four: Pass,
) -> Vec<Pass>
    ensures { result.items ≡ one ∷ two ∷ three ∷ four ∷ [] }
{
    let mut passes = room(rt, alloc, 4);
    put(&mut passes, one);
    put(&mut passes, two);
    put(&mut passes, three);
    put(&mut passes, four);
    passes
}

/// The desk ends with its four sessions.
pub(crate) fn close_four(
    rt: &impl Abort,
    alloc: Global,
    core: Core,
    desk: Desk,
    one: Pass,
    two: Pass,
    three: Pass,
    four: Pass,
) -> History
    requires desk { (desk.core ≡ id_of core) × (desk.given ≡ 4) }
    requires one { (one.table ≡ core.board.table) × (one.p.who ≡ 1) × (open_count one.p.mine ≡ 0) }
    requires two { (two.table ≡ core.board.table) × (two.p.who ≡ 2) × (open_count two.p.mine ≡ 0) }
    requires three { (three.table ≡ core.board.table) × (three.p.who ≡ 3) × (open_count three.p.mine ≡ 0) }
    requires four { (four.table ≡ core.board.table) × (four.p.who ≡ 4) × (open_count four.p.mine ≡ 0) }
    ensures { IsLegal result.entries result.sizes }
{
    let passes = in_a_list(rt, alloc, one, two, three, four);
    desk.close(core, passes)
}

/// A list with room for as many passes.
pub(crate) fn room(rt: &impl Abort, alloc: Global, count: usize) -> Vec<Pass>
    ensures items { result.items ≡ [] }
    ensures room { (vec_len result ≡ 0) × (vec_capacity result ≡ count) }
{
    match Vec::with_capacity(alloc, count) {
        Ok(passes) => passes,
        Err(_) => panic!(rt; "no memory"),
    }
}

/// One more pass, for which there is room.
pub(crate) fn put(passes: &mut Vec<Pass>, pass: Pass)
    requires { vec_len passes.old < vec_capacity passes.old }
    ensures items { passes.new.items ≡ passes.old.items ++ pass ∷ [] }
    ensures len { vec_len passes.new ≡ vec_len passes.old + 1 }
    ensures capacity { vec_capacity passes.old ≤ vec_capacity passes.new }
{
    match passes.push(pass) {
        Ok(()) => {}
        Err(AllocFailed { value: _value }) => unreachable!(),
    }
}

/// The last pass of a list.
pub(crate) fn taken(rt: &impl Abort, passes: &mut Vec<Pass>) -> Pass
    ensures { passes.old.items ≡ passes.new.items ++ result ∷ [] }
{
    match passes.pop() {
        Some(pass) => pass,
        None => panic!(rt; "there is one"),
    }
}
