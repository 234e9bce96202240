// What neighbours give one another: an item goes out of a node at one of its ends, or comes in, with the child beside it.
ghost use Rattle.std.specs.Prelude.{◌≡◌, ◌≢◌, ◌⊎◌, ℕ, ◌+◌, ◌-◌, ◌<◌, ◌≤◌, ◌^◌, List, [], ◌∷◌, ◌++◌, length, IsFalse};
ghost use Rattle.row_pool.specs.Trees.{Tree, tree_word};
ghost use Rattle.row_pool.specs.Chains.{IsChain};
ghost use Rattle.latch_item.specs.Shape.{Among};
ghost use Rattle.interval_tree.specs.States.{ReachesItem};
ghost use Rattle.tree_shrink.specs.Stages.{Carried};
ghost use Rattle.tree_shrink.specs.Steps.{SpendsAll, CanRaise, RaisesBoth, CanLower, LowersBoth, CanLend, LendsLast, LendsFirst, CanGain, GainsFirst};
ghost use Rattle.tree_shrink.specs.Steps.{GainsLast};

use crate::links::{close_gap, cut_item};
use interval_tree::workshop::{
    count_of, insert_link, raise_top, row_at, set_count, set_top, swap, top_of,
};
use latch_item::bound_cmp;
use row_pool::{Chain, RowSeat, Rows};

/// Whether an item, or some item of the child beside it, may be the one in the row `top`. The item and the child are link words; in a leaf there is no child.
fn may_have(rows: &Rows, seat: &mut RowSeat, top: u32, item: u64, kid: u64) -> bool
    requires table { seat.old.table ≡ rows.now }
    requires small { kid ≤ 4194304 }
    requires items { (h : ℕ) × (t m u : Tree) × (l rest : List Tree) × ReachesItem seat.old.view t top × Carried h seat.old.view m u l item kid rest }
    ensures same { (seat.new.table ≡ seat.old.table) × (seat.new.view ≡ seat.old.view) }
    ensures not { IsFalse result → (h : ℕ) (t m u : Tree) (l rest : List Tree) → ReachesItem seat.old.view t top
        → Carried h seat.old.view m u l item kid rest → (m ≡ t) ⊎ Among t l → ⊥ }
{
    if top as u64 + 1 == item {
        return true;
    }
    if kid == 0 {
        return false;
    }
    let best = top_of(rows, seat, (kid - 1) as u32);
    !bound_cmp(rows, seat, best, top).is_lt()
}

/// The first link of an owned node is set anew, unless neither an item nor the child beside it, which went out, had the greatest bound.
fn lower_both(rows: &Rows, seat: &mut RowSeat, row: u32, item: u64, kid: u64, chain: &mut Chain)
    requires table { seat.old.table ≡ rows.now }
    requires small { kid ≤ 4194304 }
    requires node { CanLower seat.old.view row item kid }
    requires chain { (rs : List ℕ) × IsChain seat.old.view chain.old rs }
    ensures same { (seat.new.table ≡ seat.old.table) × (seat.new.view.refs ≡ seat.old.view.refs) }
    ensures node { LowersBoth seat.old.view seat.new.view row item kid }
    ensures spends { SpendsAll 0 (row ∷ []) (row ∷ []) seat.old.view seat.new.view chain.old chain.new }
{
    let top = row_at(rows, seat, row, 0);
    if may_have(rows, seat, top, item, kid) {
        set_top(rows, seat, row, chain);
    }
}

/// The first link of an owned node takes in the bounds of an item and of the child beside it, which are about to come in.
fn raise_both(rows: &Rows, seat: &mut RowSeat, row: u32, item: u64, kid: u64, chain: &mut Chain)
    requires table { seat.old.table ≡ rows.now }
    requires small { (item ≤ 4194304) × (kid ≤ 4194304) }
    requires node { CanRaise seat.old.view row item kid }
    requires chain { (rs : List ℕ) × IsChain seat.old.view chain.old rs }
    ensures same { (seat.new.table ≡ seat.old.table) × (seat.new.view.refs ≡ seat.old.view.refs) }
    ensures node { RaisesBoth seat.old.view seat.new.view row item kid }
    ensures spends { SpendsAll 0 (row ∷ []) (row ∷ []) seat.old.view seat.new.view chain.old chain.new }
{
    raise_top(rows, seat, row, (item - 1) as u32, chain);
    if kid != 0 {
        let top = top_of(rows, seat, (kid - 1) as u32);
        raise_top(rows, seat, row, top, chain);
    }
}

/// The last item and the child behind it come out. The answer is their link words; the seat's newest references are to the two.
pub(crate) fn lend_last(rows: &Rows, seat: &mut RowSeat, row: u32, chain: &mut Chain) -> (u64, u64)
    requires table { seat.old.table ≡ rows.now }
    requires node { CanLend seat.old.view row }
    requires chain { (rs : List ℕ) × IsChain seat.old.view chain.old rs }
    ensures table { seat.new.table ≡ seat.old.table }
    ensures lent { LendsLast seat.old.view seat.new.view row result }
    ensures small { (result.0 ≤ 4194304) × (result.1 ≤ 4194304) }
    ensures spends { SpendsAll 0 (row ∷ []) (row ∷ []) seat.old.view seat.new.view chain.old chain.new }
{
    let n = count_of(rows, seat, row) as u32;
    let kid = swap(rows, seat, row, 32 + n, 0);
    let item = cut_item(rows, seat, row, n - 1, n);
    lower_both(rows, seat, row, item, kid, chain);
    (item, kid)
}

/// The first item and the child in front of it come out.
pub(crate) fn lend_first(rows: &Rows, seat: &mut RowSeat, row: u32, chain: &mut Chain) -> (u64, u64)
    requires table { seat.old.table ≡ rows.now }
    requires node { CanLend seat.old.view row }
    requires chain { (rs : List ℕ) × IsChain seat.old.view chain.old rs }
    ensures table { seat.new.table ≡ seat.old.table }
    ensures lent { LendsFirst seat.old.view seat.new.view row result }
    ensures small { (result.0 ≤ 4194304) × (result.1 ≤ 4194304) }
    ensures spends { SpendsAll 0 (row ∷ []) (row ∷ []) seat.old.view seat.new.view chain.old chain.new }
{
    let n = count_of(rows, seat, row) as u32;
    let kid = swap(rows, seat, row, 32, 0);
    close_gap(rows, seat, row, 32, 1);
    let item = cut_item(rows, seat, row, 0, n);
    lower_both(rows, seat, row, item, kid, chain);
    (item, kid)
}

/// An item and the child in front of it come in at the front of a node of 15 items.
pub(crate) fn gain_first(
    rows: &Rows,
    seat: &mut RowSeat,
    row: u32,
    item: u64,
    kid: u64,
    chain: &mut Chain,
)
    requires table { seat.old.table ≡ rows.now }
    requires small { (item ≤ 4194304) × (kid ≤ 4194304) }
    requires gains { CanGain seat.old.view row item kid }
    requires chain { (rs : List ℕ) × IsChain seat.old.view chain.old rs }
    ensures table { seat.new.table ≡ seat.old.table }
    ensures gained { GainsFirst seat.old.view seat.new.view row item kid }
    ensures spends { SpendsAll 0 (row ∷ []) (row ∷ []) seat.old.view seat.new.view chain.old chain.new }
{
    raise_both(rows, seat, row, item, kid, chain);
    insert_link(rows, seat, row, 1, item);
    insert_link(rows, seat, row, 32, kid);
    set_count(rows, seat, row, 16);
}

/// An item and the child behind it come in at the end of a node of 15 items.
pub(crate) fn gain_last(
    rows: &Rows,
    seat: &mut RowSeat,
    row: u32,
    item: u64,
    kid: u64,
    chain: &mut Chain,
)
    requires table { seat.old.table ≡ rows.now }
    requires small { (item ≤ 4194304) × (kid ≤ 4194304) }
    requires gains { CanGain seat.old.view row item kid }
    requires chain { (rs : List ℕ) × IsChain seat.old.view chain.old rs }
    ensures table { seat.new.table ≡ seat.old.table }
    ensures gained { GainsLast seat.old.view seat.new.view row item kid }
    ensures spends { SpendsAll 0 (row ∷ []) (row ∷ []) seat.old.view seat.new.view chain.old chain.new }
{
    raise_both(rows, seat, row, item, kid, chain);
    swap(rows, seat, row, 16, item);
    swap(rows, seat, row, 48, kid);
    set_count(rows, seat, row, 16);
}
