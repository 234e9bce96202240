// For tests: a desk of two functions, which keeps the entries and judges each begin before it is made.
ghost use Rattle.std.specs.Prelude.{◌≡◌, ◌∷◌, [], ◌++◌, length};
ghost use Rattle.latch_model.specs.declared.latch.Policy.TheVariants.{Wait};
ghost use Rattle.latch_model.specs.Legal.{IsLegal};
ghost use Rattle.latch_model.specs.declared.history.Sizes.{Sizes};
ghost use Rattle.signal_board.specs.Rule.{open_count};
ghost use Rattle.signal_board.specs.Says.{IsBeginBy, shown_all, shown_to};
ghost use Rattle.signal_board.specs.Steps.{EndOf, new_request, wrote};

use crate::board::{Board, DeskSeat, LaneSeat, Pass};
use hlc_stamp::Stamp;
use latch_model::ahead::is_legal_history;
use latch_model::history::{Entry, Sizes};
use latch_model::latch::{Access, Latch, Latches, Policy};
use latch_model::request::Request;
use span_key::{Key, Span};
use std::alloc::Global;
use std::process::Abort;

/// The begin of a request, once the history with it was judged legal.
pub fn begin(
    rt: &impl Abort,
    alloc: Global,
    sizes: &Sizes,
    board: &Board,
    desk: &mut DeskSeat,
    pass: &mut Pass,
    entries: &mut Vec<Entry>,
    entry: Entry,
) -> LaneSeat
    requires sizes { sizes.now ≡ desk.old.sizes }
    requires tables { (desk.old.table ≡ board.now.table) × (pass.old.table ≡ board.now.table) }
    requires log { desk.old.log ≡ entries.old.items }
    requires begins { IsBeginBy pass.old.p.who entry }
    requires idle { open_count pass.old.p.mine ≡ 0 }
    ensures entries { entries.new.items ≡ entries.old.items ++ entry ∷ [] }
    ensures desk { desk.new ≡ record desk.old { log = entries.new.items } }
    ensures pass { pass.new ≡ record pass.old { p = shown_all entries.new.items (wrote pass.old.p (length entries.old.items) entry) } }
    ensures busy { open_count pass.new.p.mine ≡ 1 }
    ensures legal { IsLegal entries.new.items sizes.now }
    ensures lane { result ≡ record { table = board.now.table; r = shown_to entries.new.items (new_request entries.old.items entry) } }
{
    let place = entries.len();
    let Ok(()) = entries.push(entry) else {
        panic!(rt; "no memory")
    };
    if place > 1 << 32 || !is_legal_history(alloc, entries.as_slice(), sizes) {
        panic!(rt; "not legal")
    }
    board.begin(desk, pass, &entries[place])
}

/// The end of a request.
pub fn end(
    rt: &impl Abort,
    board: &Board,
    desk: &mut DeskSeat,
    pass: &mut Pass,
    lane: LaneSeat,
    entries: &mut Vec<Entry>,
    entry: Entry,
)
    requires tables { (desk.old.table ≡ board.now.table) × (pass.old.table ≡ board.now.table) × (lane.table ≡ board.now.table) }
    requires log { desk.old.log ≡ entries.old.items }
    requires session { lane.r.who ≡ pass.old.p.who }
    requires ends { EndOf lane.r entry }
    ensures entries { entries.new.items ≡ entries.old.items ++ entry ∷ [] }
    ensures desk { desk.new ≡ record desk.old { log = entries.new.items } }
    ensures pass { pass.new ≡ record pass.old { p = shown_all entries.new.items (wrote pass.old.p (length entries.old.items) entry) } }
    ensures idle { open_count pass.new.p.mine ≡ 0 }
{
    let place = entries.len();
    let Ok(()) = entries.push(entry) else {
        panic!(rt; "no memory")
    };
    if place > 1 << 32 {
        panic!(rt; "too long")
    }
    board.end(desk, pass, lane, &entries[place]);
}

/// A request to write one key.
pub fn request(rt: &impl Abort, alloc: Global, key: &[u8]) -> Request
    ensures { result.policy ≡ Wait }
{
    let Ok(key) = Key::new(alloc, key) else {
        panic!(rt; "no key")
    };
    let mut list = Vec::new(alloc);
    let Ok(()) = list.push(Latch {
        access: Access::Write,
        span: Span::point(key),
        stamp: Stamp::EMPTY,
    }) else {
        panic!(rt; "no memory")
    };
    let Ok(latches) = Latches::new(list) else {
        panic!(rt; "one latch is few")
    };
    let Ok(request) = Request::new(alloc, 1, Policy::Wait, latches) else {
        panic!(rt; "no memory")
    };
    request
}
