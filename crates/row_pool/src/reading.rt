// Laws of the count rule: what it says at every moment of all seats together. They do nothing when they run.
ghost use Rattle.std.specs.Prelude.{◌≡◌, ℕ, ◌≤◌, true};
ghost use mathlib.Core.Option.{some};
ghost use lib.ListN.{get_elem?};
ghost use Rattle.atomic_table.specs.Table.{State};
ghost use Rattle.row_pool.specs.Lists.{mem};
ghost use Rattle.row_pool.specs.Trees.{Tree};
ghost use Rattle.row_pool.specs.SeatView.{SeatView};
ghost use Rattle.row_pool.specs.Caps.{rows_of_view, cap_sum};
ghost use Rattle.row_pool.specs.Rule.{RuleHolds, live};
ghost use Rattle.row_pool.specs.Views.{Reaches};
ghost use Rattle.row_pool.specs.SeatState.{OwnsOrReaches};
ghost use Rattle.row_pool.specs.Readings.{rows_elsewhere};

/// Some seat reaches each live row: by a reference, by a link of a row that it owns, or below one of these.
pub fn each_live_row_is_reached()
    ensures { (n : ℕ) (s : State ℕ SeatView) (rule : RuleHolds ℕ n s) (r : ℕ) (t : Tree) → get_elem? rule.counted.rows r ≡ some (live t)
        → (i : ℕ) × (v : SeatView) × (get_elem? s.views i ≡ some v) × Reaches v t }
{}

/// The rows that the first seat neither owns nor reaches are at most the sum of the caps of the seats that are split off. So nothing is lost: once all seats
/// are joined again the first one owns or reaches every row.
pub fn few_rows_are_elsewhere()
    ensures few { (n : ℕ) (s : State ℕ SeatView) → RuleHolds ℕ n s → (i : ℕ) (v : SeatView) → get_elem? s.views i ≡ some v → v.number ≡ 1
        → rows_elsewhere n v ≤ cap_sum v }
    ensures which { (n : ℕ) (s : State ℕ SeatView) → RuleHolds ℕ n s → (i : ℕ) (v : SeatView) → get_elem? s.views i ≡ some v → (r : ℕ)
        → (OwnsOrReaches v r → mem r (rows_of_view v) ≡ true) × (mem r (rows_of_view v) ≡ true → OwnsOrReaches v r) }
{}
