// Gates that hold a session at a line until another has come so far.
use latch_manager::gate::Gate;
use latch_manager::manager::{Making, Manager};
use std::sync::Wait;
use std::sync::atomic::{AtomicU64, Ordering};
use std::thread::yield_now;

/// How many turns a hold has before it runs out. In each the processor is left to others.
const TURNS: u32 = 5_000_000;

/// A moment of a run: in front of the command of a line, behind it, or when as many latches were held as a gate waits for.
#[derive(Clone, Copy, Debug, PartialEq, Eq)]
pub(crate) enum Moment {
    Before(u32),
    After(u32),
    Held,
}

/// A session waits at one moment until the other has come.
#[derive(Clone, Copy, Debug)]
pub(crate) struct Hold {
    pub(crate) at: Moment,
    pub(crate) until: Moment,
}

/// Which moments have come, as bits, and how many holds ran out.
#[derive(Drop)]
pub(crate) struct Moments {
    come: AtomicU64,
    ran_out: AtomicU64,
}

fn bit(moment: Moment) -> u64 {
    match moment {
        Moment::Held => 1,
        Moment::Before(line) => 1 << (2 * (line % 31) + 1),
        Moment::After(line) => 1 << (2 * (line % 31) + 2),
    }
}

impl Moments {
    fn new() -> Moments {
        Moments {
            come: AtomicU64::new(0),
            ran_out: AtomicU64::new(0),
        }
    }

    fn has_come(&self, moment: Moment) -> bool {
        self.come.load(Ordering::SeqCst) & bit(moment) != 0
    }

    fn come(&self, moment: Moment) {
        let _before = self.come.fetch_or(bit(moment), Ordering::SeqCst);
    }

    fn hold(&self, until: Moment) {
        for _ in 0..TURNS {
            if self.has_come(until) {
                return;
            }
            yield_now();
        }
        self.run_out();
    }

    fn run_out(&self) {
        let _before = self.ran_out.fetch_add(1, Ordering::SeqCst);
    }

    // A session is at this moment, which has come with it.
    fn at(&self, holds: &[Hold], moment: Moment) {
        self.come(moment);
        for hold in holds {
            if hold.at == moment {
                self.hold(hold.until);
            }
        }
    }
}

/// Holds sessions at lines from 2 to 30.
#[derive(Drop)]
pub(crate) struct Holding<'s> {
    holds: &'s [Hold],
    moments: Moments,
}

impl<'s> Holding<'s> {
    pub(crate) fn new(holds: &'s [Hold]) -> Holding<'s> {
        Holding {
            holds,
            moments: Moments::new(),
        }
    }

    /// How many holds ran out.
    pub(crate) fn ran_out(&self) -> u64 {
        self.moments.ran_out.load(Ordering::SeqCst)
    }
}

impl<'s> Gate for Holding<'s> {
    fn before<R: Wait>(&self, _rt: &R, line: u32) {
        self.moments.at(self.holds, Moment::Before(line));
    }

    fn after<R: Wait>(&self, _rt: &R, line: u32) {
        self.moments.at(self.holds, Moment::After(line));
    }
}

/// Holds sessions, and in front of one line waits until the manager counts so many latches.
#[derive(Drop)]
pub(crate) struct Watching<'s, N: Making> {
    manager: &'s Manager<N>,
    holding: Holding<'s>,
    line: u32,
    held: u32,
}

impl<'s, N: Making> Watching<'s, N> {
    pub(crate) fn new(
        manager: &'s Manager<N>,
        holds: &'s [Hold],
        line: u32,
        held: u32,
    ) -> Watching<'s, N> {
        Watching {
            manager,
            holding: Holding::new(holds),
            line,
            held,
        }
    }

    /// How many holds ran out.
    pub(crate) fn ran_out(&self) -> u64 {
        self.holding.ran_out()
    }

    fn count<R: Wait>(&self, rt: &R) {
        for _ in 0..TURNS {
            let global = self.manager.metrics(rt).global;
            if global.read.saturating_add(global.write) >= self.held {
                self.holding.moments.come(Moment::Held);
                return;
            }
            yield_now();
        }
        self.holding.moments.run_out();
    }
}

impl<'s, N: Making + Send + Sync> Gate for Watching<'s, N> {
    fn before<R: Wait>(&self, rt: &R, line: u32) {
        self.holding.before(rt, line);
        if line == self.line {
            self.count(rt);
        }
    }

    fn after<R: Wait>(&self, rt: &R, line: u32) {
        self.holding.after(rt, line);
    }
}
