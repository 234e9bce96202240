// Links of owned nodes: a gap is closed, and a child is taken out.
ghost use Rattle.std.specs.Prelude.{◌≡◌, ◌≢◌, ℕ, ◌+◌, ◌-◌, ◌<◌, ◌≤◌, ◌^◌, List, [], ◌∷◌, ◌++◌, length};
ghost use Rattle.interval_tree.specs.Held.{OthersStand, HasRoom};
ghost use Rattle.tree_shrink.specs.Steps.{SpendsAll, CanShift, Shifts, CanDraw, Draws, CanClose, Closes, CanTake, Takes, CanCut, Cuts, CanCloseChildren, ClosesChildren};

use interval_tree::workshop::{kind_of, own_node, set_count, swap};
use row_pool::{Chain, RowSeat, Rows};

/// The first link of a node that leads to an item, and the first that leads to a child.
const ITEMS: u32 = 1;

const CHILDREN: u32 = 32;

/// The kind of an inner node.
const INNER: u64 = 3;

/// The links from k to k + n move down by one place, the last one first, and what the link word `goal` names, the seat's newest reference or nothing, goes
/// into the last place. The answer is what came out of the first, as a link word.
fn shift_down(rows: &Rows, seat: &mut RowSeat, row: u32, k: u32, n: u32, goal: u64) -> u64
    requires table { seat.old.table ≡ rows.now }
    requires links { CanShift seat.old.view row k n goal }
    ensures table { seat.new.table ≡ seat.old.table }
    ensures shifted { Shifts seat.old.view seat.new.view row k n goal result }
    ensures others { OthersStand row seat.old.view seat.new.view }
    ensures low { result ≤ 4194304 }
{
    let next = swap(rows, seat, row, k + n, goal);
    if n == 0 {
        return next;
    }
    shift_down(rows, seat, row, k, n - 1, next)
}

/// The link k of an owned node comes out, and the n links behind it move down by one place, which costs one store a link: the last one goes first. The last
/// place is empty then. The answer is what came out, as a link word, and the seat's newest reference is to it.
pub(crate) fn draw_link(rows: &Rows, seat: &mut RowSeat, row: u32, k: u32, n: u32) -> u64
    requires table { seat.old.table ≡ rows.now }
    requires links { CanDraw seat.old.view row k n }
    ensures table { seat.new.table ≡ seat.old.table }
    ensures drawn { Draws seat.old.view seat.new.view row k n result }
    ensures others { OthersStand row seat.old.view seat.new.view }
    ensures low { result ≤ 4194304 }
{
    shift_down(rows, seat, row, k, n, 0)
}

/// The n links behind the empty link k move down by one place, and the last place is empty then.
pub(crate) fn close_gap(rows: &Rows, seat: &mut RowSeat, row: u32, k: u32, n: u32)
    requires table { seat.old.table ≡ rows.now }
    requires gap { CanClose seat.old.view row k n }
    ensures same { (seat.new.table ≡ seat.old.table) × (seat.new.view.refs ≡ seat.old.view.refs) }
    ensures closed { Closes seat.old.view seat.new.view row k n }
    ensures others { OthersStand row seat.old.view seat.new.view }
{
    if n > 0 {
        draw_link(rows, seat, row, k, n);
    }
}

/// The live child at the link k comes out and is owned: the row itself where nothing else leads to it, else a copy.
pub(crate) fn take_child(
    rows: &Rows,
    seat: &mut RowSeat,
    row: u32,
    k: u32,
    chain: &mut Chain,
) -> u32
    requires table { seat.old.table ≡ rows.now }
    requires child { CanTake seat.old.view row k }
    requires room { HasRoom 1 seat.old.view chain.old }
    ensures same { (seat.new.table ≡ seat.old.table) × (seat.new.view.refs ≡ seat.old.view.refs) }
    ensures taken { Takes seat.old.view seat.new.view row k result }
    ensures spends { SpendsAll 1 (row ∷ []) (row ∷ result ∷ []) seat.old.view seat.new.view chain.old chain.new }
{
    let link = swap(rows, seat, row, k, 0);
    own_node(rows, seat, (link - 1) as u32, chain)
}

/// In an inner node the children behind the item number i of n, which is out, close up. A leaf has none.
fn close_children(rows: &Rows, seat: &mut RowSeat, row: u32, i: u32, n: u32)
    requires table { seat.old.table ≡ rows.now }
    requires gap { CanCloseChildren seat.old.view row i n }
    ensures same { (seat.new.table ≡ seat.old.table) × (seat.new.view.refs ≡ seat.old.view.refs) }
    ensures closed { ClosesChildren seat.old.view seat.new.view row i n }
    ensures others { OthersStand row seat.old.view seat.new.view }
{
    if kind_of(rows, seat, row) == INNER {
        close_gap(rows, seat, row, CHILDREN + 1 + i, n - 1 - i);
    }
}

/// The item number i of n comes out, and the places behind it close up. So do those behind the second child beside it, which is out already.
pub(crate) fn cut_item(rows: &Rows, seat: &mut RowSeat, row: u32, i: u32, n: u32) -> u64
    requires table { seat.old.table ≡ rows.now }
    requires seam { CanCut seat.old.view row i n }
    ensures table { seat.new.table ≡ seat.old.table }
    ensures seam { Cuts seat.old.view seat.new.view row i n result }
    ensures others { OthersStand row seat.old.view seat.new.view }
    ensures low { result ≤ 4194304 }
{
    let item = draw_link(rows, seat, row, ITEMS + i, n - 1 - i);
    close_children(rows, seat, row, i, n);
    set_count(rows, seat, row, n as u64 - 1);
    item
}
