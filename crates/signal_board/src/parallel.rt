// Sessions on threads of their own share a board. A mutex keeps the desk, and no lock is held while a request polls.
ghost use Rattle.std.specs.Prelude.{◌≡◌, ℕ, [], ◌∷◌, length, ◌<◌, ◌+◌, All, IfNone, IfSome, Some, slice_index_or};
ghost use Rattle.latch_model.specs.declared.latch.Policy.TheVariants.{Wait as waits_on};
ghost use Rattle.latch_model.specs.Histories.{Begin, before, entry_of};
ghost use Rattle.latch_model.specs.Legal.{IsLegal};
ghost use Rattle.signal_board.specs.Rule.{InLane, IsPrerequisite, open_count};
ghost use Rattle.signal_board.specs.Says.{PassSays};
ghost use Rattle.signal_board.specs.Waits.{SameRequest, WaitsFor};

use crate::board::{Board, DeskSeat, LaneSeat, Pass};
use crate::judge::{begin, end, request};
use latch_model::history::{Cause, Entry, Fault, Grant, Sizes};
use latch_model::latch::Mode;
use latch_model::legality::legal_so_far;
use latch_model::prerequisites::{before, is_begun_once};
use latch_model::request::Request;
use std::alloc::Global;
use std::marker::{Brand, PhantomData};
use std::process::Abort;
use std::sync::{Mutex, Wait};
use std::test::Fail;
use std::thread;
use std::thread::Threads;

const SESSIONS: u32 = 4;

const ROUNDS: u32 = 60;

const POLLS: u32 = 400;

const SIZES: Sizes = Sizes {
    latches: 16,
    lanes: SESSIONS,
    rows: 208,
};

/// Which board, desk and passes belong together. The test picks it.
pub trait Making {
    ghost use Rattle.atomic_table.specs.Seated.{TableId};

    ghost table: { TableId };
}

impl Making for Brand {
    ghost use Rattle.std.specs.Prelude.{[]};

    ghost table = { record { words = 0; slots = 0; views_name = 0; atom = 0; block = 0; offset = 0; slot_names = [] } };
}

/// The desk's seat, its entries, the number of the next request, and a bit for each lane that is taken.
struct Locked<N: Making> {
    desk: DeskSeat,
    entries: Vec<Entry>,
    next: u64,
    taken: u64,
    of: PhantomData<N>,
    ghost is: { desk ≡ record { table = N.table; sizes = record { latches = 16; lanes = 4; rows = 208 }; log = entries.items; given = 4; retired = [] } },
}

// The lane of the request that an entry begins, where it is this request.
fn lane_if(entry: &Entry, id: u64) -> Option<u32>
    ensures { IfSome result (λ lane. (b : Begin) × (entry.now ≡ entry_of b) × (b.id ≡ id) × (b.lane ≡ lane)) }
{
    match entry {
        Entry::Begun {
            id: begun,
            lane,
            who: _,
            mode: _,
            request: _,
        } => { if *begun == id { Some(*lane) } else { None } }
        Entry::Ended {
            id: _,
            who: _,
            grant: _,
            poison: _,
            fault: _,
        } => None,
    }
}

// The lane of a request that was begun.
fn lane_of(rt: &impl Abort, entries: &[Entry], id: u64) -> u32
    requires { IsLegal entries.now SIZES }
    ensures { InLane entries.now id result }
{
    for entry in entries {
        if let Some(lane) = lane_if(entry, id) {
            return lane;
        }
    }
    panic!(rt; "it was begun")
}

// The one request, at most, for which a request waits, and its lane.
fn waits_of(rt: &impl Abort, alloc: Global, entries: &[Entry], id: u64) -> Option<(u64, u32)>
    requires { IsLegal entries.now SIZES }
    ensures one { IfSome result (λ w. (before entries.now id ≡ w.0 ∷ []) × InLane entries.now w.0 w.1) }
    ensures none { IfNone result (before entries.now id ≡ []) }
{
    assert!(rt; is_begun_once(entries, id));
    let Ok(ids) = before(alloc, entries, id) else {
        panic!(rt; "no memory")
    };
    if ids.len() == 0 {
        return None;
    }
    assert!(rt; ids.len() == 1);
    let first = ids[0];
    Some((first, lane_of(rt, entries, first)))
}

// A request begins, and is told for whom it waits.
fn open<N: Making, R: Wait + Abort>(
    rt: &R,
    alloc: Global,
    board: &Board,
    desk: &Mutex<Locked<N>>,
    pass: &mut Pass,
    request: Request,
) -> (LaneSeat, Option<(u64, u32)>)
    requires board { board.now.table ≡ N.table }
    requires pass { (pass.old.table ≡ N.table) × (open_count pass.old.p.mine ≡ 0) }
    requires policy { request.policy ≡ waits_on }
    ensures pass { (pass.new.table ≡ N.table) × (pass.new.p.who ≡ pass.old.p.who) }
    ensures seat { (result.0.table ≡ N.table) × (result.0.r.who ≡ pass.old.p.who) × (result.0.r.request.policy ≡ waits_on) }
    ensures waits { WaitsFor result.0.r result.1 }
{
    let who = pass.who();
    let mut guard = desk.lock(rt);
    let locked = &mut *guard;
    let id = locked.next;
    let lane = (!locked.taken).trailing_zeros();
    if id > 1 << 40 || lane >= SESSIONS {
        panic!(rt; "there is a free lane")
    }
    locked.next = id + 1;
    locked.taken |= 1 << lane;
    let entry = Entry::Begun {
        id,
        lane,
        who,
        mode: Mode::Acquire,
        request,
    };
    let seat = begin(
        rt,
        alloc,
        &SIZES,
        board,
        &mut locked.desk,
        pass,
        &mut locked.entries,
        entry,
    );
    let waits = waits_of(rt, alloc, locked.entries.as_slice(), id);
    (seat, waits)
}

// Every third request is poisoned by its own session.
fn may_poison(board: &Board, seat: &mut LaneSeat, round: u32)
    requires table { seat.old.table ≡ board.now.table }
    ensures { seat.new ≡ record seat.old { r = record seat.old.r { cause = seat.new.r.cause } } }
{
    if round % 3 == 0 {
        board.poison(seat, Cause::Called);
    }
}

// Is poisoned by the request for which it waits, where that one is poisoned.
fn poisoned_by(board: &Board, seat: &mut LaneSeat, id: u64, lane: u32)
    requires table { seat.old.table ≡ board.now.table }
    requires waits { (seat.old.r.request.policy ≡ waits_on) × IsPrerequisite seat.old.r id lane }
    ensures same { SameRequest seat.old seat.new }
{
    if board.poisoned(seat, lane, id) {
        board.poison(seat, Cause::From(id));
    }
}

// Polls until the request for which it waits has ended, but not for ever. The answer is the front, where it is granted.
fn wait_for(board: &Board, seat: &mut LaneSeat, id: u64, lane: u32) -> Option<u64>
    requires table { seat.old.table ≡ board.now.table }
    requires waits { (seat.old.r.request.policy ≡ waits_on) × IsPrerequisite seat.old.r id lane }
    requires only { (p j : ℕ) → IsPrerequisite seat.old.r p j → p ≡ id }
    ensures same { SameRequest seat.old seat.new }
    ensures front { IfSome result (λ front. seat.new.r.front ≡ Some front) }
{
    for round in 0..POLLS {
        if board.done(seat, lane, id) {
            return Some(board.stamp(seat));
        }
        poisoned_by(board, seat, id, lane);
    }
    None
}

// The front of a request, where it is granted.
fn wait(board: &Board, seat: &mut LaneSeat, waits: Option<(u64, u32)>) -> Option<u64>
    requires table { seat.old.table ≡ board.now.table }
    requires policy { seat.old.r.request.policy ≡ waits_on }
    requires waits { WaitsFor seat.old.r waits }
    ensures same { SameRequest seat.old seat.new }
    ensures front { IfSome result (λ front. seat.new.r.front ≡ Some front) }
{
    match waits {
        None => Some(board.stamp(seat)),
        Some((id, lane)) => wait_for(board, seat, id, lane),
    }
}

// The request ends, granted where it has a front.
fn finish<N: Making, R: Wait + Abort>(
    rt: &R,
    board: &Board,
    desk: &Mutex<Locked<N>>,
    pass: &mut Pass,
    seat: LaneSeat,
    front: Option<u64>,
)
    requires board { board.now.table ≡ N.table }
    requires pass { (pass.old.table ≡ N.table) × (pass.old.p.who ≡ seat.r.who) }
    requires seat { (seat.table ≡ N.table) × IfSome front (λ f. seat.r.front ≡ Some f) }
    ensures pass { (pass.new.table ≡ N.table) × (pass.new.p.who ≡ pass.old.p.who) × (open_count pass.new.p.mine ≡ 0) }
{
    let grant = match front {
        Some(front) => Grant::Waited(front),
        None => Grant::Never,
    };
    let entry = Entry::Ended {
        id: seat.id(),
        who: pass.who(),
        grant,
        poison: seat.cause(),
        fault: Fault::None,
    };
    let lane = seat.lane();
    let mut guard = desk.lock(rt);
    let locked = &mut *guard;
    if lane >= SESSIONS {
        panic!(rt; "it has a lane")
    }
    locked.taken &= !(1 << lane);
    end(
        rt,
        board,
        &mut locked.desk,
        pass,
        seat,
        &mut locked.entries,
        entry,
    );
}

// A request begins, may be poisoned, polls and ends.
fn one_request<N: Making, R: Wait + Abort>(
    rt: &R,
    alloc: Global,
    board: &Board,
    desk: &Mutex<Locked<N>>,
    pass: &mut Pass,
    round: u32,
)
    requires board { board.now.table ≡ N.table }
    requires pass { (pass.old.table ≡ N.table) × (open_count pass.old.p.mine ≡ 0) }
    ensures pass { (pass.new.table ≡ N.table) × (pass.new.p.who ≡ pass.old.p.who) × (open_count pass.new.p.mine ≡ 0) }
{
    let key: &[u8] = if pass.who() < 3 { b"a" } else { b"b" };
    let request = request(rt, alloc, key);
    let (mut seat, waits) = open(rt, alloc, board, desk, pass, request);
    may_poison(board, &mut seat, round);
    let front = wait(board, &mut seat, waits);
    finish(rt, board, desk, pass, seat, front);
}

fn session<N: Making, R: Wait + Abort>(
    rt: &R,
    alloc: Global,
    board: &Board,
    desk: &Mutex<Locked<N>>,
    pass: &mut Pass,
)
    requires board { board.now.table ≡ N.table }
    requires pass { (pass.old.table ≡ N.table) × (open_count pass.old.p.mine ≡ 0) }
    ensures pass { (pass.new.table ≡ N.table) × (pass.new.p.who ≡ pass.old.p.who) × (open_count pass.new.p.mine ≡ 0) }
{
    for round in 0..ROUNDS {
        one_request(rt, alloc, board, desk, pass, round);
    }
}

// Each session on a thread of its own.
fn sessions<N: Making + Send + Sync, R: Threads + Wait + Abort + Sync>(
    rt: &R,
    alloc: Global,
    board: &Board,
    desk: &Mutex<Locked<N>>,
    passes: &mut [Pass],
)
    requires board { board.now.table ≡ N.table }
    requires passes { All (λ p. (p.table ≡ N.table) × (open_count p.p.mine ≡ 0)) passes.old }
    ensures passes { (i : ℕ) (d : PassSays) → i < length passes.old → ((slice_index_or passes.new i d).table ≡ N.table)
        × ((slice_index_or passes.new i d).p.who ≡ (slice_index_or passes.old i d).p.who) × (open_count (slice_index_or passes.new i d).p.mine ≡ 0) }
{
    thread::for_each_mut(
        rt,
        passes,
        4,
        &|_: usize, pass: &mut Pass| {
            session(rt, alloc, board, desk, pass);
        },
    );
}

// The board ends with its four passes.
fn close_all(board: Board, desk: DeskSeat, one: Pass, two: Pass, three: Pass, four: Pass)
    requires desk { (desk.table ≡ board.table) × (desk.sizes ≡ SIZES) × (desk.given ≡ 4) × (desk.retired ≡ []) }
    requires one { (one.table ≡ board.table) × (one.p.who ≡ 1) × (open_count one.p.mine ≡ 0) }
    requires two { (two.table ≡ board.table) × (two.p.who ≡ 2) × (open_count two.p.mine ≡ 0) }
    requires three { (three.table ≡ board.table) × (three.p.who ≡ 3) × (open_count three.p.mine ≡ 0) }
    requires four { (four.table ≡ board.table) × (four.p.who ≡ 4) × (open_count four.p.mine ≡ 0) }
{
    let mut desk = desk;
    board.retire(&mut desk, one);
    board.retire(&mut desk, two);
    board.retire(&mut desk, three);
    board.retire(&mut desk, four);
    board.close(desk);
}

// The four sessions beside each other, from the empty history to the end of the board. The answer is the whole history.
fn beside_each_other<N: Making + Send + Sync, R: Threads + Wait + Abort + Sync>(
    rt: &R,
    alloc: Global,
    board: Board,
    desk: DeskSeat,
    passes: [Pass; 4],
) -> Vec<Entry>
    requires board { board.table ≡ N.table }
    requires desk { desk ≡ record { table = N.table; sizes = SIZES; log = []; given = 4; retired = [] } }
    requires passes { (i : ℕ) (d : PassSays) → i < 4 → ((slice_index_or passes i d).table ≡ N.table)
        × ((slice_index_or passes i d).p.who ≡ i + 1) × (open_count (slice_index_or passes i d).p.mine ≡ 0) }
{
    let locked = Mutex::new(Locked::<N> {
        desk,
        entries: Vec::new(alloc),
        next: 1,
        taken: 0,
        of: PhantomData,
    });
    let mut passes = passes;
    sessions(rt, alloc, &board, &locked, &mut passes);
    let done = passes;
    let [one, two, three, four] = done;
    let Locked {
        desk,
        entries,
        next: _,
        taken: _,
        of: _,
    } = locked.into_inner();
    close_all(board, desk, one, two, three, four);
    entries
}

// Four threads begin, poison, poll, stamp and end requests of one board. All end, in one legal history.
#[test]
fn threads_share_a_board(rt: HostRuntime) -> Result<(), Fail> {
    let alloc = rt.alloc();
    let (board, mut desk) = Board::new(alloc, SIZES)?;
    let one = board.enroll(&mut desk, 1);
    let two = board.enroll(&mut desk, 2);
    let three = board.enroll(&mut desk, 3);
    let four = board.enroll(&mut desk, 4);
    let entries = beside_each_other::<Brand, HostRuntime>(
        &rt,
        alloc,
        board,
        desk,
        [one, two, three, four],
    );
    assert_eq!(&rt; entries.len(), (2 * SESSIONS * ROUNDS) as usize);
    assert!(&rt; legal_so_far(entries.as_slice(), &SIZES));
    Ok(())
}
