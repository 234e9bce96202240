// What is held at one time, as the program itself sees it: no two writers of a key, and no writer beside a reader.
use crate::runs::{history_of, next_number};
use latch_manager::gate::Gate;
use report::Summary;
use std::alloc::{AllocError, Global};
use std::sync::Wait;
use std::sync::atomic::{AtomicU64, Ordering};
use std::test::Fail;
use std::thread::yield_now;

const KEYS: usize = 3;

const SESSIONS: u32 = 8;

const REQUESTS: u32 = 320;

/// What a cell counts a writer as. A reader counts 1.
const WRITER: u64 = 1 << 32;

/// What a line does: its answer begins to hold a key, or its command ends that, with so much in the key's cell.
#[derive(Clone, Copy, Debug)]
enum Act {
    Nothing,
    Enters { key: usize, weight: u64 },
    Leaves { key: usize, weight: u64 },
}

/// A cell for each key, and how often two were in one that exclude each other.
#[derive(Drop)]
struct Cells {
    cells: [AtomicU64; KEYS],
    broken: AtomicU64,
}

impl Cells {
    fn new() -> Cells {
        Cells {
            cells: [AtomicU64::new(0), AtomicU64::new(0), AtomicU64::new(0)],
            broken: AtomicU64::new(0),
        }
    }

    fn enter(&self, key: usize, weight: u64) {
        let before = self.cells[key % KEYS].fetch_add(weight, Ordering::SeqCst);
        if before >= WRITER || (weight == WRITER && before != 0) {
            let _before = self.broken.fetch_add(1, Ordering::SeqCst);
        }
        yield_now();
    }

    fn leave(&self, key: usize, weight: u64) {
        let _before = self.cells[key % KEYS].fetch_sub(weight, Ordering::SeqCst);
    }

    fn broken(&self) -> u64 {
        self.broken.load(Ordering::SeqCst)
    }
}

/// What lines do, from line 2 on, and the cells.
#[derive(Drop)]
struct Looking<'s> {
    acts: &'s [Act],
    cells: Cells,
}

fn act_of(acts: &[Act], line: u32) -> Act {
    match acts.get(line.saturating_sub(2) as usize) {
        Some(act) => *act,
        None => Act::Nothing,
    }
}

impl<'s> Gate for Looking<'s> {
    fn before<R: Wait>(&self, _rt: &R, line: u32) {
        if let Act::Leaves { key, weight } = act_of(self.acts, line) {
            self.cells.leave(key, weight);
        }
    }

    fn after<R: Wait>(&self, _rt: &R, line: u32) {
        if let Act::Enters { key, weight } = act_of(self.acts, line) {
            self.cells.enter(key, weight);
        }
    }
}

/// A script that is being written, and what its lines do.
#[derive(Drop)]
struct Draft {
    text: Vec<u8>,
    acts: Vec<Act>,
}

impl Draft {
    fn new(alloc: Global) -> Result<Draft, AllocError> {
        Ok(Draft {
            text: Vec::from_slice(alloc, b"latch script 1\n")?,
            acts: Vec::new(alloc),
        })
    }

    fn number(&mut self, n: u32) -> Result<(), AllocError> {
        let mut digits = itoa::Buffer::new();
        self.text.extend_from_slice(digits.format(n).as_bytes())
    }

    // A line that opens a name.
    fn opens(
        &mut self,
        mode: &[u8],
        session: u32,
        name: u32,
        rest: &[u8],
        act: Act,
    ) -> Result<(), AllocError> {
        self.text.extend_from_slice(mode)?;
        self.number(session)?;
        self.text.extend_from_slice(b" q")?;
        self.number(name)?;
        self.text.extend_from_slice(rest)?;
        self.text.extend_from_slice(b"\n")?;
        self.acts.push(act)?;
        Ok(())
    }

    // A line of a word and a name.
    fn line(&mut self, word: &[u8], name: u32, rest: &[u8], act: Act) -> Result<(), AllocError> {
        self.text.extend_from_slice(word)?;
        self.number(name)?;
        self.text.extend_from_slice(rest)?;
        self.text.extend_from_slice(b"\n")?;
        self.acts.push(act)?;
        Ok(())
    }
}

// The latch on a key, with its access.
fn latch(access: u32, key: u32) -> &'static [u8] {
    match (access % 2, key % 3) {
        (0, 0) => b" wait w:61",
        (0, 1) => b" wait w:62",
        (0, _) => b" wait w:63",
        (_, 0) => b" wait r:61",
        (_, 1) => b" wait r:62",
        (_, _) => b" wait r:63",
    }
}

// A request that waits until it is granted, by its opening or as an optimistic one that turns to waiting. Some are poisoned while they hold.
fn push_holder(draft: &mut Draft, session: u32, name: u32, kind: u32) -> Result<(), AllocError> {
    let key = (kind % 3) as usize;
    let weight = if kind / 3 % 2 == 0 { WRITER } else { 1 };
    let latch = latch(kind / 3, kind);
    let enters = Act::Enters { key, weight };
    if kind / 6 % 2 == 0 {
        draft.opens(b"acquire ", session, name, latch, enters)?;
    } else {
        draft.opens(b"optimistic ", session, name, latch, Act::Nothing)?;
        draft.line(b"wait q", name, b"", enters)?;
    }
    if kind / 12 % 4 == 0 {
        draft.line(b"poison q", name, b"", Act::Nothing)?;
    }
    draft.line(b"release q", name, b"", Act::Leaves { key, weight })
}

// A request of another kind, which may be refused or holds for the program's eyes nothing.
fn push_other(draft: &mut Draft, session: u32, name: u32, kind: u32) -> Result<(), AllocError> {
    match kind % 4 {
        0 => draft.opens(b"acquire ", session, name, b" error w:61-63", Act::Nothing)?,
        1 => draft.opens(
            b"acquire ",
            session,
            name,
            b" wait turns=1 w:62",
            Act::Nothing,
        )?,
        2 => draft.opens(b"look ", session, name, b" wait w:61-64", Act::Nothing)?,
        _ => {
            draft.opens(
                b"optimistic ",
                session,
                name,
                b" wait r:61-64",
                Act::Nothing,
            )?;
            draft.line(b"check q", name, b" r:61", Act::Nothing)?;
        }
    }
    draft.line(b"release q", name, b"", Act::Nothing)
}

fn draft_of(alloc: Global, seed: &mut u64) -> Result<Draft, AllocError> {
    let mut draft = Draft::new(alloc)?;
    for name in 0..REQUESTS {
        let session = name % SESSIONS + 1;
        let kind = next_number(seed);
        if kind % 4 == 0 {
            push_other(&mut draft, session, name, kind / 4)?;
        } else {
            push_holder(&mut draft, session, name, kind / 4)?;
        }
    }
    draft.text.extend_from_slice(b"end\n")?;
    Ok(draft)
}

#[test]
fn no_two_hold_that_exclude_each_other(rt: HostRuntime) -> Result<(), Fail> {
    let mut seed = 7;
    for _ in 0..20 {
        let draft = draft_of(rt.alloc(), &mut seed)?;
        let looking = Looking {
            acts: draft.acts.as_slice(),
            cells: Cells::new(),
        };
        let history = history_of(&rt, rt.alloc(), draft.text.as_slice(), &looking);
        assert!(&rt; looking.cells.broken() == 0);
        assert!(&rt; Summary::of(history.entries.as_slice()).begun == u64::from(REQUESTS));
    }
    Ok(())
}
