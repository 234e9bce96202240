// The report of a history, version 1.
ghost use Rattle.std.specs.Prelude.{◌≡◌, codes, decimal, ◌++◌, IfOk, OnOk, map, true};
ghost use Rattle.std.specs.List.{flat_map, list_all};
ghost use Rattle.latch_model.specs.Histories.{before, begins};
ghost use Rattle.latch_model.specs.Legal.{IsLegal};
ghost use Rattle.report.specs.Passing.{ArePrerequisites};
ghost use Rattle.report.specs.Plain.{is_plain};
ghost use Rattle.report.specs.Reports.{begin_line, cause_text, checked_latches, end_line, entry_line, fault_text, grant_text, latches_text, report_text};

use crate::counts::{Summary, push_count};
use crate::passing::{checked_list, next_list};
use crate::text::push_numbers;
use latch_model::{Cause, Entry, Fault, Grant, History, Latch, Mode, Request, before_each};
use script::{mode_word, policy_word, push_latch};
use span_key::Memory;
use std::alloc::Global;

/// The report of a legal history, version 1: its first line, a line for each entry, and the last line. The prerequisites of all requests
/// are found in one pass. Only want of memory is refused.
pub fn render(alloc: Global, history: &History) -> Result<Vec<u8>, Memory>
    requires { IsLegal history.now.entries history.now.sizes }
    ensures { IfOk result (λ out. out.items ≡ report_text history.now.entries) }
{
    let lists = before_each(alloc, history)?;
    let mut out = Vec::new(alloc);
    push_report(history.entries.as_slice(), lists.as_slice(), &mut out)?;
    Ok(out)
}

// The whole report. `lists` has the prerequisites of the requests in the order of their begins.
fn push_report(entries: &[Entry], lists: &[Vec<u64>], out: &mut Vec<u8>) -> Result<(), Memory>
    requires { map (λ v. v.items) lists.now ≡ map (λ b. before entries.now b.id) (begins entries.now) }
    ensures { OnOk result (out.new.items ≡ out.old.items ++ report_text entries.now) }
{
    out.extend_from_slice(b"latch report 1\n")?;
    push_entries(entries, lists, out)?;
    Summary::of(entries).summary_text(out)?;
    Ok(())
}

// The lines of all entries. `lists` as above.
fn push_entries(entries: &[Entry], lists: &[Vec<u64>], out: &mut Vec<u8>) -> Result<(), Memory>
    requires { map (λ v. v.items) lists.now ≡ map (λ b. before entries.now b.id) (begins entries.now) }
    ensures { OnOk result (out.new.items ≡ out.old.items ++ flat_map (entry_line entries.now) entries.now) }
{
    let mut rest = lists;
    for entry in entries {
        let (ids, others) = next_list(rest, entry);
        push_entry(entry, ids, out)?;
        rest = others;
    }
    Ok(())
}

// The line of an entry. Where it begins a request, `ids` are its prerequisites.
fn push_entry(entry: &Entry, ids: &[u64], out: &mut Vec<u8>) -> Result<(), Memory>
    ensures { OnOk result ((h : _) → ArePrerequisites h ids.now entry.now → out.new.items ≡ out.old.items ++ entry_line h entry.now) }
{
    match entry {
        Entry::Begun {
            id,
            lane,
            who,
            mode,
            request,
        } => push_begin(ids, *id, *lane, *who, *mode, request, out),
        Entry::Ended {
            id,
            grant,
            poison,
            fault,
            ..
        } => push_end(*id, grant, *poison, *fault, out),
    }
}

fn push_begin(
    ids: &[u64],
    id: u64,
    lane: u32,
    who: u32,
    mode: Mode,
    request: &Request,
    out: &mut Vec<u8>,
) -> Result<(), Memory>
    ensures { OnOk result (out.new.items ≡ out.old.items ++ begin_line ids.now id lane who mode request.now) }
{
    push_count(b"begin ", id, out)?;
    push_small(b" lane=", lane, out)?;
    push_small(b" session=", who, out)?;
    push_small(b" line=", request.tag(), out)?;
    push_word(mode_word(mode), out)?;
    push_word(policy_word(request.policy()), out)?;
    out.extend_from_slice(b" before=")?;
    push_numbers(ids, out)?;
    push_latches(request.latches().list(), out)?;
    Ok(())
}

fn push_end(
    id: u64,
    grant: &Grant,
    poison: Cause,
    fault: Fault,
    out: &mut Vec<u8>,
) -> Result<(), Memory>
    ensures { OnOk result (out.new.items ≡ out.old.items ++ end_line id grant.now poison fault) }
{
    push_count(b"end ", id, out)?;
    out.extend_from_slice(b" ")?;
    push_cause(poison, out)?;
    out.extend_from_slice(b" ")?;
    push_fault(fault, out)?;
    out.extend_from_slice(b" ")?;
    push_grant(grant, out)?;
    push_latches(checked_list(grant), out)?;
    Ok(())
}

// A word and a number of 32 bits.
fn push_small(word: &[u8], n: u32, out: &mut Vec<u8>) -> Result<(), Memory>
    ensures { OnOk result (out.new.items ≡ out.old.items ++ (word.now ++ decimal n)) }
{
    push_count(word, u64::from(n), out)
}

// A space and a word.
fn push_word(word: &[u8], out: &mut Vec<u8>) -> Result<(), Memory>
    ensures { OnOk result (out.new.items ≡ out.old.items ++ (codes " " ++ word.now)) }
{
    out.extend_from_slice(b" ")?;
    out.extend_from_slice(word)
}

// Each latch with a space in front of it, and the end of the line.
fn push_latches(latches: &[Latch], out: &mut Vec<u8>) -> Result<(), Memory>
    ensures { OnOk result (out.new.items ≡ out.old.items ++ (latches_text latches.now ++ codes "\n")) }
{
    for latch in latches {
        out.push(b' ')?;
        push_latch(latch, out)?;
    }
    out.extend_from_slice(b"\n")?;
    Ok(())
}

/// Why a request is poisoned, as reports show it.
pub(crate) fn push_cause(poison: Cause, out: &mut Vec<u8>) -> Result<(), Memory>
    ensures text { OnOk result (out.new.items ≡ out.old.items ++ cause_text poison) }
    ensures plain { list_all is_plain (cause_text poison) ≡ true }
{
    match poison {
        Cause::None => out.extend_from_slice(b"-"),
        Cause::Called => out.extend_from_slice(b"called"),
        Cause::From(by) => push_count(b"from=", by, out),
    }
}

/// What ended a wait, as reports show it.
pub(crate) fn push_fault(fault: Fault, out: &mut Vec<u8>) -> Result<(), Memory>
    ensures text { OnOk result (out.new.items ≡ out.old.items ++ fault_text fault) }
    ensures plain { list_all is_plain (fault_text fault) ≡ true }
{
    match fault {
        Fault::None => out.extend_from_slice(b"-"),
        Fault::Poisoned(by) => push_count(b"poisoned=", by, out),
        Fault::Cancelled(turns) => push_count(b"cancelled=", turns, out),
    }
}

/// How a request came to hold its latches, as reports show it.
pub(crate) fn push_grant(grant: &Grant, out: &mut Vec<u8>) -> Result<(), Memory>
    ensures text { OnOk result (out.new.items ≡ out.old.items ++ grant_text grant.now) }
    ensures plain { list_all is_plain (grant_text grant.now) ≡ true }
{
    match grant {
        Grant::Never => out.extend_from_slice(b"never"),
        Grant::Waited(front) => push_count(b"waited=", *front, out),
        Grant::Checked(_) => out.extend_from_slice(b"checked"),
    }
}
