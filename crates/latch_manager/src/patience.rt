// How long a wait goes on.
ghost use Rattle.std.specs.Prelude.{◌≡◌, ℕ, ◌≤◌, ◌↔◌, true, false, Option, Some};
ghost use Rattle.latch_manager.specs.Patience.{Refused};

/// Whether a wait that was blocked goes on. It counts its refusals, a number that never falls, and may have a limit, which never changes.
pub trait Patience {
    ghost refusals: { Self → ℕ };

    ghost limit: { Self → Option ℕ };

    /// Whether to poll again, after so many polls of the request were blocked. It is refused only where the count of refusals rose in this call or
    /// stands at its last value, 2^64 - 1; and, where there is a limit, exactly where `turns` is at least the limit.
    fn more(&mut self, turns: u64) -> bool
        ensures later { refusals self.old ≤ refusals self.new }
        ensures limit { limit self.new ≡ limit self.old }
        ensures refused { result ≡ false → Refused (refusals self.old) (refusals self.new) }
        ensures same { result ≡ true → refusals self.new ≡ refusals self.old }
        ensures at_limit { (n : ℕ) → limit self.old ≡ Some n → (result ≡ false) ↔ (n ≤ turns) };
}

/// Waits as long as it takes.
#[derive(Clone, Copy, Debug)]
pub struct Endless;

impl Patience for Endless {
    ghost use Rattle.std.specs.Prelude.{None};

    ghost refusals = { λ _. 0 };

    ghost limit = { λ _. None };

    fn more(&mut self, _turns: u64) -> bool {
        true
    }
}

/// Gives up after a number of polls that were blocked.
#[derive(Clone, Copy, Debug)]
pub struct Turns {
    most: u32,
    refused: u64,
}

impl Turns {
    /// Gives up after `most` polls that were blocked, at least 1.
    pub fn new(most: u32) -> Turns
        requires { 1 ≤ most }
        ensures limit { result.most ≡ most }
        ensures refused { result.refused ≡ 0 }
    {
        Turns { most, refused: 0 }
    }
}

impl Patience for Turns {
    ghost use Rattle.std.specs.Prelude.{Some};

    ghost refusals = { λ t. t.refused };

    ghost limit = { λ t. Some t.most };

    fn more(&mut self, turns: u64) -> bool {
        if turns >= u64::from(self.most) {
            self.refused = self.refused.saturating_add(1);
            false
        } else {
            true
        }
    }
}
