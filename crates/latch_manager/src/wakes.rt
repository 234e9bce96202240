// How waiters sleep and are woken. Nothing is claimed of it: a wait is right however often it polls.
//
// A waiter sleeps at one request that it waits for and that it found open, since it can't be granted before that one ends; an end wakes the sleepers of its
// slot alone. No wake is missed: an end raises the count of all wakes and then that of its slot, and a waiter reads the one before its poll, then announces
// itself at the slot and reads that one's count, and then the first again. So an end that its poll didn't see either has raised the first by then, and it
// doesn't sleep, or raises the slot's count behind its reading and finds it announced.
use std::sync::atomic::{AtomicU64, Ordering};
use std::sync::{Condvar, Mutex, Wait};
use std::{array, hint};

/// How many slots there are. Requests whose numbers are equal modulo this share one.
const SLOTS: usize = 64;

/// How often a slot's count is looked at before its waiter sleeps.
const LOOKS: u32 = 100;

/// The sleepers at some requests: a count that rises at each wake and wraps, and how many sleep or are about to.
#[derive(Drop)]
struct Slot {
    count: AtomicU64,
    sleepers: AtomicU64,
    asleep: Mutex<()>,
    raised: Condvar,
}

/// A count that rises at each wake and wraps, how often all were woken, and the slots.
#[derive(Drop)]
pub(crate) struct Wakes {
    count: AtomicU64,
    nudges: AtomicU64,
    slots: [Slot; SLOTS],
}

impl Wakes {
    pub(crate) fn new() -> Wakes {
        Wakes {
            count: AtomicU64::new(0),
            nudges: AtomicU64::new(0),
            slots: array::from_fn(|_| Slot::new()),
        }
    }

    /// The count. It is read before a poll, so that a wake behind it is never missed.
    pub(crate) fn now(&self) -> u64 {
        self.count.load(Ordering::SeqCst)
    }

    /// Whether all were never woken.
    pub(crate) fn is_calm(&self) -> bool {
        self.nudges.load(Ordering::SeqCst) == 0
    }

    /// Sleeps until the request with this number ends or all are woken, unless the count is another by now.
    pub(crate) fn sleep<R: Wait>(&self, rt: &R, seen: u64, by: u64) {
        let slot = self.slot(by);
        let _before = slot.sleepers.fetch_add(1, Ordering::SeqCst);
        let count = slot.now();
        if self.now() == seen {
            slot.sleep(rt, count);
        }
        let _before = slot.sleepers.fetch_sub(1, Ordering::SeqCst);
    }

    /// Wakes who sleeps at the request with this number.
    pub(crate) fn raise<R: Wait>(&self, rt: &R, id: u64) {
        let _before = self.count.fetch_add(1, Ordering::SeqCst);
        self.slot(id).raise(rt);
    }

    /// Wakes all.
    pub(crate) fn raise_all<R: Wait>(&self, rt: &R) {
        let _before = self.nudges.fetch_add(1, Ordering::SeqCst);
        let _before = self.count.fetch_add(1, Ordering::SeqCst);
        for slot in &self.slots {
            slot.raise(rt);
        }
    }

    fn slot(&self, id: u64) -> &Slot {
        &self.slots[(id % SLOTS as u64) as usize]
    }
}

impl Slot {
    fn new() -> Slot {
        Slot {
            count: AtomicU64::new(0),
            sleepers: AtomicU64::new(0),
            asleep: Mutex::new(()),
            raised: Condvar::new(),
        }
    }

    fn now(&self) -> u64 {
        self.count.load(Ordering::SeqCst)
    }

    // Looks at the count for a while, and then sleeps while it is still this one.
    fn sleep<R: Wait>(&self, rt: &R, seen: u64) {
        for _ in 0..LOOKS {
            if self.now() != seen {
                return;
            }
            hint::spin_loop();
        }
        let mut guard = self.asleep.lock(rt);
        for _ in rt.forever() {
            if self.now() != seen {
                break;
            }
            guard = self.raised.wait(rt, guard);
        }
    }

    // Raises the count, and wakes who sleeps, if anybody does. Who saw the old count under the lock has gone to sleep by the time that the lock was had, and
    // is woken when it was let go: else he would wake only to wait for it.
    fn raise<R: Wait>(&self, rt: &R) {
        let _before = self.count.fetch_add(1, Ordering::SeqCst);
        if self.sleepers.load(Ordering::SeqCst) == 0 {
            return;
        }
        drop(self.asleep.lock(rt));
        self.raised.notify_all();
    }
}
