// The history's entries, with room for those that are to come.
ghost use Rattle.std.specs.Prelude.{◌≡◌, ℕ, ◌+◌, ◌-◌, ◌≤◌, ◌<◌, ◌^◌, [], ◌∷◌, ◌++◌, length, OnOk, OnErr, IfOk};

use latch_model::history::Entry;
use span_key::Memory;
use std::alloc::Global;
use std::marker::Model;

/// A history's entries, and for how many further ones there is room.
#[derive(Drop)]
pub(crate) struct Book {
    entries: Vec<Entry>,
    room: usize,
}

impl Model for Book {
    ghost use Rattle.std.specs.Prelude.{◌+◌, ◌≤◌, ◌<◌, ◌^◌, vec_len, vec_capacity};
    ghost use Rattle.sequence_core.specs.Book.{BookSays};

    ghost Value = { BookSays };

    ghost view = { λ b. record { entries = b.entries.items; room = b.room } };

    ghost invariant = { λ b. (vec_len b.entries + b.room ≤ vec_capacity b.entries) × (vec_len b.entries + b.room + 1 < 2 ^ 64) };
}

impl Book {
    pub(crate) fn new(alloc: Global) -> Book
        ensures { result ≡ record { entries = []; room = 0 } }
    {
        Book {
            entries: Vec::new(alloc),
            room: 0,
        }
    }

    /// Takes room for at least `n` further entries.
    pub(crate) fn make_room(&mut self, n: usize) -> Result<(), Memory>
        requires { n < 2 ^ 32 }
        ensures entries { self.new.entries ≡ self.old.entries }
        ensures room { OnOk result (n ≤ self.new.room) }
        ensures kept { self.old.room ≤ self.new.room }
    {
        if n > self.room {
            // One more, so that the length stays below what its type has.
            self.entries.reserve(n + 1)?;
            self.room = n;
        }
        Ok(())
    }

    /// One more entry, for which there is room.
    pub(crate) fn add(&mut self, entry: Entry)
        requires { 0 < self.old.room }
        ensures { self.new ≡ record { entries = self.old.entries ++ entry ∷ []; room = self.old.room - 1 } }
    {
        let Ok(()) = self.entries.push(entry) else {
            unreachable!()
        };
        self.room -= 1;
    }

    /// The length of the history and its room are below what their type has.
    pub(crate) fn is_small(&self)
        ensures { length self.now.entries + self.now.room + 1 < 2 ^ 64 }
    {
        let _ = &self.room;
    }

    /// All entries.
    pub(crate) fn into_entries(self) -> Vec<Entry>
        ensures { result.items ≡ self.entries }
    {
        let Book { entries, room: _ } = self;
        entries
    }
}
