// The report of a history as JSON. Each entry is made a value and written, so that one entry at a time is held as a value.
ghost use Rattle.std.specs.Prelude.{◌≡◌, ◌<◌, ◌^◌, ◌++◌, ◌∷◌, [], true, false, IfOk, OnOk, codes, decimal, map};
ghost use Rattle.std.specs.List.{join_with_byte, list_all};
ghost use Rattle.latch_model.specs.Histories.{before, begins};
ghost use Rattle.latch_model.specs.Legal.{IsLegal};
ghost use Rattle.report.specs.Json.{begin_json, end_json, entry_json, latch_list, listed, quoted, report_json, summary_json};
ghost use Rattle.report.specs.Passing.{ArePrerequisites, comma_unless};
ghost use Rattle.report.specs.Reports.{cause_text, fault_text, grant_text};
ghost use Rattle.report.specs.Plain.{is_plain, shown, sound};
ghost use Rattle.serde_json.specs.Data.{array, member, no_members, number, object, string, unsigned};
ghost use Rattle.serde_json.specs.View.{items_view, view};
ghost use Rattle.script.specs.Texts.{latch_text};

use crate::counts::Summary;
use crate::lines::{push_cause, push_fault, push_grant};
use crate::passing::{checked_list, next_list};
use hlc_stamp::Stamp;
use latch_model::{Cause, Entry, Fault, Grant, History, Latch, Mode, Request, before_each};
use script::{mode_word, policy_word, push_latch};
use serde_json::{Value, json};
use span_key::Memory;
use std::alloc::Global;

/// The report of a legal history as JSON: one object without spaces, its keys in the order of their bytes, and a line feed. Only want of
/// memory is refused.
pub fn render_json(alloc: Global, history: &History) -> Result<Vec<u8>, Memory>
    requires { IsLegal history.now.entries history.now.sizes }
    ensures { IfOk result (λ out. out.items ≡ report_json history.now.entries) }
{
    let lists = before_each(alloc, history)?;
    let mut out = Vec::new(alloc);
    put_report(
        alloc,
        history.entries.as_slice(),
        lists.as_slice(),
        &mut out,
    )?;
    Ok(out)
}

// The whole report. `lists` has the prerequisites of the requests in the order of their begins.
fn put_report(
    alloc: Global,
    entries: &[Entry],
    lists: &[Vec<u64>],
    out: &mut Vec<u8>,
) -> Result<(), Memory>
    requires { map (λ v. v.items) lists.now ≡ map (λ b. before entries.now b.id) (begins entries.now) }
    ensures { OnOk result (out.new.items ≡ out.old.items ++ report_json entries.now) }
{
    out.extend_from_slice(b"{\"entries\":[")?;
    put_entries(alloc, entries, lists, out)?;
    out.extend_from_slice(b"],\"report\":1,\"summary\":")?;
    put(alloc, &summary_object(alloc, Summary::of(entries))?, out)?;
    out.extend_from_slice(b"}\n")?;
    Ok(())
}

// The objects of all entries with commas between them. `lists` as above.
fn put_entries(
    alloc: Global,
    entries: &[Entry],
    lists: &[Vec<u64>],
    out: &mut Vec<u8>,
) -> Result<(), Memory>
    requires { map (λ v. v.items) lists.now ≡ map (λ b. before entries.now b.id) (begins entries.now) }
    ensures { OnOk result (out.new.items ≡ out.old.items ++ join_with_byte 44 (map (entry_json entries.now) entries.now)) }
{
    let mut rest = lists;
    let mut first = true;
    for entry in entries {
        let (ids, others) = next_list(rest, entry);
        put_entry(alloc, first, entry, ids, out)?;
        rest = others;
        first = false;
    }
    Ok(())
}

// The object of an entry, with a comma in front of it unless it is the first. `ids` as below.
fn put_entry(
    alloc: Global,
    first: bool,
    entry: &Entry,
    ids: &[u64],
    out: &mut Vec<u8>,
) -> Result<(), Memory>
    ensures { OnOk result ((h : _) → ArePrerequisites h ids.now entry.now → out.new.items ≡ out.old.items ++ (comma_unless first ++ entry_json h entry.now)) }
{
    if !first {
        out.push(b',')?;
    }
    put_object(alloc, entry, ids, out)
}

// The text of a value.
fn put(alloc: Global, value: &Value, out: &mut Vec<u8>) -> Result<(), Memory>
    ensures { OnOk result ((text : _) → shown (view value.now) ≡ sound text → out.new.items ≡ out.old.items ++ text) }
{
    out.extend_from_slice(value.to_vec(alloc)?.as_slice())
}

// The object of an entry. Where it begins a request, `ids` are its prerequisites.
fn put_object(alloc: Global, entry: &Entry, ids: &[u64], out: &mut Vec<u8>) -> Result<(), Memory>
    ensures { OnOk result ((h : _) → ArePrerequisites h ids.now entry.now → out.new.items ≡ out.old.items ++ entry_json h entry.now) }
{
    match entry {
        Entry::Begun {
            id,
            lane,
            who,
            mode,
            request,
        } => {
            let value = begin_value(alloc, ids, *id, *lane, *who, *mode, request)?;
            put(alloc, &value, out)?;
            Ok(())
        }
        Entry::Ended {
            id,
            grant,
            poison,
            fault,
            ..
        } => {
            let value = end_value(alloc, *id, grant, *poison, *fault)?;
            put(alloc, &value, out)?;
            Ok(())
        }
    }
}

fn begin_value(
    alloc: Global,
    ids: &[u64],
    id: u64,
    lane: u32,
    who: u32,
    mode: Mode,
    request: &Request,
) -> Result<Value, Memory>
    ensures { IfOk result (λ v. shown (view v) ≡ sound (begin_json ids.now id lane who mode request.now)) }
{
    let before = number_list(alloc, ids)?;
    let latches = latch_list(alloc, request.latches().list())?;
    let mode = word(alloc, mode_word(mode))?;
    let policy = word(alloc, policy_word(request.policy()))?;
    begin_object(
        alloc,
        before,
        id,
        lane,
        latches,
        request.tag(),
        mode,
        policy,
        who,
    )
}

fn begin_object(
    alloc: Global,
    before: Value,
    id: u64,
    lane: u32,
    latches: Value,
    line: u32,
    mode: Value,
    policy: Value,
    session: u32,
) -> Result<Value, Memory>
    ensures { IfOk result (λ v. view v ≡ object (
        member (codes "before") (view before) (
        member (codes "begin") (number (unsigned id)) (
        member (codes "lane") (number (unsigned lane)) (
        member (codes "latches") (view latches) (
        member (codes "line") (number (unsigned line)) (
        member (codes "mode") (view mode) (
        member (codes "policy") (view policy) (
        member (codes "session") (number (unsigned session)) no_members))))))))) }
{
    json!(in alloc; {
        "before": before,
        "begin": id,
        "lane": lane,
        "latches": latches,
        "line": line,
        "mode": mode,
        "policy": policy,
        "session": session
    })
}

fn end_value(
    alloc: Global,
    id: u64,
    grant: &Grant,
    poison: Cause,
    fault: Fault,
) -> Result<Value, Memory>
    ensures { IfOk result (λ v. shown (view v) ≡ sound (end_json id grant.now poison fault)) }
{
    let cause = cause_value(alloc, poison)?;
    let fault = fault_value(alloc, fault)?;
    let latches = latch_list(alloc, checked_list(grant))?;
    let grant = grant_value(alloc, grant)?;
    end_object(alloc, cause, id, fault, grant, latches)
}

fn end_object(
    alloc: Global,
    cause: Value,
    id: u64,
    fault: Value,
    grant: Value,
    latches: Value,
) -> Result<Value, Memory>
    ensures { IfOk result (λ v. view v ≡ object (
        member (codes "cause") (view cause) (
        member (codes "end") (number (unsigned id)) (
        member (codes "fault") (view fault) (
        member (codes "grant") (view grant) (
        member (codes "latches") (view latches) no_members)))))) }
{
    json!(in alloc; {
        "cause": cause,
        "end": id,
        "fault": fault,
        "grant": grant,
        "latches": latches
    })
}

fn summary_object(alloc: Global, summary: Summary) -> Result<Value, Memory>
    ensures { IfOk result (λ v. view v ≡ object (
        member (codes "cancelled") (number (unsigned summary.cancelled)) (
        member (codes "checked") (number (unsigned summary.checked)) (
        member (codes "granted") (number (unsigned summary.granted)) (
        member (codes "never") (number (unsigned summary.never)) (
        member (codes "poisoned") (number (unsigned summary.poisoned)) (
        member (codes "requests") (number (unsigned summary.begun)) no_members))))))) }
{
    json!(in alloc; {
        "cancelled": summary.cancelled,
        "checked": summary.checked,
        "granted": summary.granted,
        "never": summary.never,
        "poisoned": summary.poisoned,
        "requests": summary.begun
    })
}

fn cause_value(alloc: Global, poison: Cause) -> Result<Value, Memory>
    ensures { IfOk result (λ v. shown (view v) ≡ sound (quoted (cause_text poison))) }
{
    let mut text = Vec::new(alloc);
    push_cause(poison, &mut text)?;
    Ok(plain_value(text))
}

fn fault_value(alloc: Global, fault: Fault) -> Result<Value, Memory>
    ensures { IfOk result (λ v. shown (view v) ≡ sound (quoted (fault_text fault))) }
{
    let mut text = Vec::new(alloc);
    push_fault(fault, &mut text)?;
    Ok(plain_value(text))
}

fn grant_value(alloc: Global, grant: &Grant) -> Result<Value, Memory>
    ensures { IfOk result (λ v. shown (view v) ≡ sound (quoted (grant_text grant.now))) }
{
    let mut text = Vec::new(alloc);
    push_grant(grant, &mut text)?;
    Ok(plain_value(text))
}

fn word(alloc: Global, word: &[u8]) -> Result<Value, Memory>
    requires { list_all is_plain word.now ≡ true }
    ensures { IfOk result (λ v. shown (view v) ≡ sound (quoted word.now)) }
{
    Ok(plain_value(Vec::from_slice(alloc, word)?))
}

// A latch as its text.
fn latch_value(alloc: Global, latch: &Latch) -> Result<Value, Memory>
    ensures { IfOk result (λ v. shown (view v) ≡ sound (quoted (latch_text latch.now))) }
{
    let _ = latch.span.key();
    fits(latch.stamp);
    let mut text = Vec::new(alloc);
    push_latch(latch, &mut text)?;
    Ok(plain_value(text))
}

// The parts of a stamp have 64 and 32 bits: what tells that their texts are digits.
fn fits(stamp: Stamp)
    ensures wall { stamp.wall < 2 ^ 64 }
    ensures logical { stamp.logical < 2 ^ 32 }
{
    let _stamp = stamp;
}

// A text that needs no escape.
fn plain_value(text: Vec<u8>) -> Value
    requires { list_all is_plain text.items ≡ true }
    ensures { shown (view result) ≡ sound (quoted text.items) }
{
    match String::from_utf8(text) {
        Ok(text) => Value::from(text),
        Err(_) => unreachable!(),
    }
}

// A list of numbers.
fn number_list(alloc: Global, numbers: &[u64]) -> Result<Value, Memory>
    ensures { IfOk result (λ v. shown (view v) ≡ sound (listed (map decimal numbers.now))) }
{
    Ok(Value::from(number_values(alloc, numbers)?))
}

fn number_values(alloc: Global, numbers: &[u64]) -> Result<Vec<Value>, Memory>
    ensures { IfOk result (λ list. map (λ v. shown (view v)) list.items ≡ map (λ n. sound (decimal n)) numbers.now) }
{
    let mut list = Vec::with_capacity(alloc, numbers.len())?;
    for n in numbers {
        list.push(Value::from(*n))?;
    }
    Ok(list)
}

// A list of latches.
fn latch_list(alloc: Global, latches: &[Latch]) -> Result<Value, Memory>
    ensures { IfOk result (λ v. shown (view v) ≡ sound (latch_list latches.now)) }
{
    Ok(Value::from(latch_values(alloc, latches)?))
}

fn latch_values(alloc: Global, latches: &[Latch]) -> Result<Vec<Value>, Memory>
    ensures { IfOk result (λ list. map (λ v. shown (view v)) list.items ≡ map (λ l. sound (quoted (latch_text l))) latches.now) }
{
    let mut list = Vec::with_capacity(alloc, latches.len())?;
    for latch in latches {
        list.push(latch_value(alloc, latch)?)?;
    }
    Ok(list)
}
