// Generated scripts: requests whose latches are drawn from one number, the same on each machine.
ghost use Rattle.std.specs.Prelude.{◌≡◌, ◌+◌, ◌%◌, ◌<◌, ◌≤◌, ◌++◌, ◌∷◌, [], IfOk, OnOk, MatchOption, length, take};
ghost use Rattle.script.specs.Generated as spec;

use crate::command::{Command, Name, Script};
use crate::field::key_of;
use crate::limits::{MAKE_LIMIT, SESSION_LIMIT};
use arrayvec::ArrayString;
use hlc_stamp::Stamp;
use itoa::Buffer;
use latch_model::latch::{Access, Latch, Latches, Mode, Policy};
use span_key::{Key, Memory, Span};
use std::alloc::Global;

/// The generated script of `n` requests, which are of all sessions in turn. It has every mode and both policies, reads and writes, local
/// and global keys, ranges, stamps, checks and poisonings.
pub fn make_script(alloc: Global, n: u32) -> Result<Script, Memory>
    requires { n ≤ MAKE_LIMIT }
    ensures { IfOk result (λ s. s ≡ spec.generated n) }
{
    let mut commands = Vec::new(alloc);
    open_all(alloc, n, &mut commands)?;
    close_last(alloc, n, &mut commands)?;
    Ok(Script::of(commands))
}

// Opens n requests. The one before it of its session is closed first.
fn open_all(alloc: Global, n: u32, out: &mut Vec<Command>) -> Result<(), Memory>
    requires { n ≤ MAKE_LIMIT }
    ensures { OnOk result (out.new.items ≡ out.old.items ++ spec.openings_from n 0 n) }
{
    let mut last = n;
    for i in 0..n {
        last = open(alloc, i, last, out)?;
    }
    Ok(())
}

// Closes those of n requests that are still open: the last one of each session.
fn close_last(alloc: Global, n: u32, out: &mut Vec<Command>) -> Result<(), Memory>
    requires { n ≤ MAKE_LIMIT }
    ensures { OnOk result (out.new.items ≡ out.old.items ++ spec.last_closings n) }
{
    if n <= SESSION_LIMIT {
        return close_all(alloc, n, 0, out);
    }
    close_all(alloc, SESSION_LIMIT, n - SESSION_LIMIT, out)
}

// Closes n requests from request `first` on.
fn close_all(alloc: Global, n: u32, first: u32, out: &mut Vec<Command>) -> Result<(), Memory>
    requires { first + n ≤ MAKE_LIMIT }
    ensures { OnOk result (out.new.items ≡ out.old.items ++ spec.closings_from n first) }
{
    for k in 0..n {
        close(alloc, first + k, out)?;
    }
    Ok(())
}

// Opens request i, for which numbers are drawn after `last`, and answers the last one.
fn open(alloc: Global, i: u32, last: u32, out: &mut Vec<Command>) -> Result<u32, Memory>
    requires request { i < MAKE_LIMIT }
    requires number { last < 65537 }
    ensures commands { let c = spec.draw last in
        OnOk result (out.new.items ≡ out.old.items ++ spec.opening_of i (spec.drawn_latches (1 + c % 4) c).0) }
    ensures drawn { let c = spec.draw last in IfOk result (λ x. x ≡ (spec.drawn_latches (1 + c % 4) c).1) }
    ensures low { IfOk result (λ x. x < 65537) }
{
    if i >= SESSION_LIMIT {
        close(alloc, i - SESSION_LIMIT, out)?;
    }
    let count = draw(last);
    let (list, last) = drawn_latches(alloc, 1 + count % 4, count)?;
    begin(alloc, i, few(alloc, list), out)?;
    Ok(last)
}

// The opening line of request i, and what follows it at once.
fn begin(alloc: Global, i: u32, latches: Latches, out: &mut Vec<Command>) -> Result<(), Memory>
    requires { i < MAKE_LIMIT }
    ensures { OnOk result (out.new.items
        ≡ ((out.old.items ++ spec.begin_command i latches ∷ []) ++ spec.first_check (spec.mode_of i) i latches) ++ spec.poisoning i) }
{
    let check = first_check(alloc, i, &latches)?;
    out.push(Command::Begin {
        session: i % SESSION_LIMIT + 1,
        name: name_of(i),
        mode: mode_of(i),
        policy: policy_of(i),
        turns: None,
        latches,
    })?;
    if let Some(check) = check {
        out.push(check)?;
    }
    if i % 97 == 50 {
        out.push(Command::Poison { name: name_of(i) })?;
    }
    Ok(())
}

// The check of an optimistic request's first latch.
fn first_check(alloc: Global, i: u32, latches: &Latches) -> Result<Option<Command>, Memory>
    requires { i < MAKE_LIMIT }
    ensures { let checks = spec.first_check (spec.mode_of i) i latches.now in
        IfOk result (λ o. MatchOption o (checks ≡ []) (λ c. checks ≡ c ∷ [])) }
{
    match mode_of(i) {
        Mode::Acquire | Mode::Look => Ok(None),
        Mode::Optimistic => Ok(Some(Command::Check {
            name: name_of(i),
            latches: few(alloc, first_of(alloc, latches.list())?),
        })),
    }
}

// A copy of the first of some latches.
fn first_of(alloc: Global, latches: &[Latch]) -> Result<Vec<Latch>, Memory>
    ensures { IfOk result (λ v. v.items ≡ take 1 latches.now) }
{
    let mut list = Vec::new(alloc);
    if let Some(latch) = latches.first() {
        list.push(latch.copy(alloc)?)?;
    }
    Ok(list)
}

// Closes request i.
fn close(alloc: Global, i: u32, out: &mut Vec<Command>) -> Result<(), Memory>
    requires { i < MAKE_LIMIT }
    ensures { OnOk result (out.new.items ≡ out.old.items ++ spec.closing i) }
{
    if !skips_wait(i) {
        out.push(Command::Wait { name: name_of(i) })?;
    }
    out.push(Command::Release { name: name_of(i) })?;
    Ok(())
}

// Few enough latches for one request.
fn few(alloc: Global, list: Vec<Latch>) -> Latches
    requires { length list.items ≤ 4 }
    ensures { result ≡ list.items }
{
    match Latches::new(list) {
        Ok(latches) => latches.shared(alloc),
        Err(_) => unreachable!(),
    }
}

// The next n latches, by numbers that are drawn after `first`, and the last one of these.
fn drawn_latches(alloc: Global, n: u32, first: u32) -> Result<(Vec<Latch>, u32), Memory>
    requires { first < 65537 }
    ensures list { IfOk result (λ r. r.0.items ≡ (spec.drawn_latches n first).0) }
    ensures last { IfOk result (λ r. r.1 ≡ (spec.drawn_latches n first).1) }
    ensures low { IfOk result (λ r. r.1 < 65537) }
    ensures many { IfOk result (λ r. length r.0.items ≡ n) }
{
    let mut list = Vec::with_capacity(alloc, n as usize)?;
    let mut last = first;
    for _k in 0..n {
        let kind = draw(last);
        let place = draw(kind);
        let reach = draw(place);
        last = draw(reach);
        list.push(drawn_latch(alloc, kind, place, reach, last)?)?;
    }
    Ok((list, last))
}

fn drawn_latch(alloc: Global, kind: u32, place: u32, reach: u32, time: u32) -> Result<Latch, Memory>
    ensures { IfOk result (λ l. l ≡ spec.drawn_latch kind place reach time) }
{
    Ok(Latch {
        access: if kind % 4 == 0 {
            Access::Write
        } else {
            Access::Read
        },
        span: drawn_span(alloc, if place % 16 == 0 { 1 } else { b'a' }, place, reach)?,
        stamp: drawn_stamp(time),
    })
}

fn drawn_span(alloc: Global, first: u8, place: u32, reach: u32) -> Result<Span, Memory>
    ensures { IfOk result (λ s. s ≡ spec.drawn_span first place reach) }
{
    let place = place % 4096;
    let key = drawn_key(alloc, first, place)?;
    if reach % 3 != 0 {
        return Ok(Span::point(key));
    }
    match Span::range(key, drawn_key(alloc, first, place + 1 + reach % 50)?) {
        Ok(span) => Ok(span),
        Err(_) => unreachable!(),
    }
}

fn drawn_key(alloc: Global, first: u8, n: u32) -> Result<Key, Memory>
    requires { n < 65536 }
    ensures { IfOk result (λ k. k ≡ spec.drawn_key first n) }
{
    key_of(alloc, &[first, (n / 256) as u8, (n % 256) as u8])
}

fn drawn_stamp(time: u32) -> Stamp
    ensures { result ≡ spec.drawn_stamp time }
{
    Stamp {
        wall: if time % 8 == 0 {
            0
        } else {
            1 + u64::from(time % 1000)
        },
        logical: 0,
    }
}

// The number that is drawn after `last`.
fn draw(last: u32) -> u32
    requires { last < 65537 }
    ensures drawn { result ≡ spec.draw last }
    ensures low { result < 65537 }
{
    (75 * last + 74) % 65537
}

fn name_of(i: u32) -> Name
    requires { i < MAKE_LIMIT }
    ensures { result ≡ spec.name_of i }
{
    let mut digits = Buffer::new();
    let mut text = ArrayString::new();
    text.push('q');
    text.push_str(digits.format(i));
    Name::of(text)
}

fn mode_of(i: u32) -> Mode
    ensures { result ≡ spec.mode_of i }
{
    if i % 11 == 10 {
        Mode::Look
    } else if i % 5 == 4 {
        Mode::Optimistic
    } else {
        Mode::Acquire
    }
}

fn policy_of(i: u32) -> Policy
    ensures { result ≡ spec.policy_of i }
{
    if i % 7 == 3 {
        Policy::Error
    } else {
        Policy::Wait
    }
}

// Whether closing request i is without a wait.
fn skips_wait(i: u32) -> bool
    ensures { result ≡ spec.skips_wait (spec.mode_of i) i }
{
    match mode_of(i) {
        Mode::Acquire | Mode::Look => false,
        Mode::Optimistic => i % 10 == 4,
    }
}
