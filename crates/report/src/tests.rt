use super::*;
use hlc_stamp::Stamp;
use latch_model::latch::{Access, Latch, Latches, Mode, Policy};
use latch_model::{Cause, Entry, Fault, Grant, History, Request, Sizes, is_legal_history};
use serde_json::Value;
use span_key::{Key, Span, SpanRoom};
use std::alloc::Global;
use std::process::Abort;
use std::test::Fail;
use waiter::Mark;

#[derive(Clone, Copy)]
struct Row<'a> {
    access: Access,
    key: &'a [u8],
    // Empty for a single key.
    end: &'a [u8],
    stamp: (u64, u32),
    latch: &'a [u8],
    mark: &'a [u8],
}

fn latch_of(alloc: Global, row: Row<'_>) -> Result<Latch, Fail> {
    let key = Key::new(alloc, row.key)?;
    let span = if row.end.is_empty() {
        Span::point(key)
    } else {
        Span::range(key, Key::new(alloc, row.end)?)?
    };
    let stamp = Stamp {
        wall: row.stamp.0,
        logical: row.stamp.1,
    };
    Ok(Latch {
        access: row.access,
        span,
        stamp,
    })
}

#[test]
fn latches_show_the_declared_stamp_and_marks_the_normal_one(rt: HostRuntime) -> Result<(), Fail> {
    let rows = [
        Row {
            access: Access::Write,
            key: b"a",
            end: b"",
            stamp: (0, 0),
            latch: b"w:61",
            mark: b"61@0.0",
        },
        Row {
            access: Access::Write,
            key: b"z0",
            end: b"z9",
            stamp: (99, 0),
            latch: b"w:7a30-7a39@99",
            mark: b"7a30-7a39@99.0",
        },
        Row {
            access: Access::Read,
            key: &[0x61, 0x00],
            end: b"",
            stamp: (0, 5),
            latch: b"r:6100@0.5",
            mark: b"6100@0.5",
        },
        Row {
            access: Access::Read,
            key: &[0x01, 0xff],
            end: b"",
            stamp: (10, 0),
            latch: b"r:01ff@10",
            mark: b"01ff@0.0",
        },
        Row {
            access: Access::Read,
            key: b"a",
            end: b"",
            stamp: (10, 0),
            latch: b"r:61@10",
            mark: b"61@10.0",
        },
        Row {
            access: Access::Read,
            key: b"a",
            end: b"b",
            stamp: (u64::MAX, u32::MAX),
            latch: b"r:61-62@18446744073709551615.4294967295",
            mark: b"61-62@18446744073709551615.4294967295",
        },
    ];
    for row in rows {
        let latch = latch_of(rt.alloc(), row)?;
        let mut out = Vec::new(rt.alloc());
        latch_text(rt.alloc(), &latch, &mut out)?;
        assert_eq!(rt; out.as_slice(), row.latch);
        let mut out = Vec::new(rt.alloc());
        held_latch_text(&latch, &mut out)?;
        assert_eq!(rt; out.as_slice(), row.mark);
    }
    Ok(())
}

#[test]
fn numbers_are_decimal_with_commas_between(rt: HostRuntime) -> Result<(), Fail> {
    let rows: [(&[u64], &[u8]); 4] = [
        (&[], b"-"),
        (&[1, 2, 3], b"1,2,3"),
        (&[0], b"0"),
        (&[10, u64::MAX], b"10,18446744073709551615"),
    ];
    for (numbers, want) in rows {
        let mut out = Vec::new(rt.alloc());
        numbers_text(numbers, &mut out)?;
        assert_eq!(rt; out.as_slice(), want);
    }
    let mut out = Vec::new(rt.alloc());
    number_text(20000, &mut out)?;
    assert_eq!(rt; out.as_slice(), b"20000".as_slice());
    Ok(())
}

#[test]
fn the_last_line_has_six_counts(rt: HostRuntime) -> Result<(), Fail> {
    let summary = Summary {
        begun: 15,
        granted: 1,
        checked: 2,
        poisoned: 3,
        cancelled: 4,
        never: 5,
    };
    let mut out = Vec::new(rt.alloc());
    summary.summary_text(&mut out)?;
    assert_eq!(rt;
        out.as_slice(),
        b"requests 15 granted 1 checked 2 poisoned 3 cancelled 4 never 5\n".as_slice()
    );
    Ok(())
}

#[test]
fn a_mark_is_shown_by_its_span_and_both_parts_of_its_stamp(rt: HostRuntime) -> Result<(), Fail> {
    let alloc = rt.alloc();
    let mut span = SpanRoom::roomy(alloc)?;
    span.refill(b"a", b"c");
    let mut mark = Mark {
        by: 1,
        place: 0,
        span,
        stamp: Stamp {
            wall: 7,
            logical: 0,
        },
    };
    let mut out = Vec::new(alloc);
    mark_text(alloc, &mark, &mut out)?;
    mark.span.refill(b"a", b"");
    mark.stamp = Stamp::EMPTY;
    mark_text(alloc, &mark, &mut out)?;
    assert!(rt; out.as_slice() == b"61-63@7.061@0.0".as_slice());
    Ok(())
}

// The latch on this key, or on the range from it to an end that is not empty.
fn latches_of(alloc: Global, access: Access, key: &[u8], end: &[u8]) -> Result<Latches, Fail> {
    let key = Key::new(alloc, key)?;
    let span = if end.is_empty() {
        Span::point(key)
    } else {
        Span::range(key, Key::new(alloc, end)?)?
    };
    let mut list = Vec::new(alloc);
    list.push(Latch {
        access,
        span,
        stamp: Stamp::EMPTY,
    })?;
    Ok(Latches::new(list)?)
}

// The begin of a request in the session of its number, on the line behind.
fn begin(
    alloc: Global,
    id: u32,
    lane: u32,
    mode: Mode,
    policy: Policy,
    latches: Latches,
) -> Result<Entry, Fail> {
    let request = Request::new(alloc, id % 64 + 1, policy, latches)?;
    Ok(Entry::Begun {
        id: u64::from(id),
        lane,
        who: id,
        mode,
        request,
    })
}

fn end(id: u32, grant: Grant, poison: Cause, fault: Fault) -> Entry {
    Entry::Ended {
        id: u64::from(id),
        who: id,
        grant,
        poison,
        fault,
    }
}

// Tells how a history is reported, as text and as JSON, and that the JSON is read as such an object.
fn shows(
    rt: &impl Abort,
    alloc: Global,
    entries: Vec<Entry>,
    lines: &str,
    json: &str,
) -> Result<Value, Fail> {
    let sizes = Sizes {
        latches: 1024,
        lanes: 64,
        rows: 98304,
    };
    let history = History { entries, sizes };
    assert!(rt; is_legal_history(alloc, history.entries.as_slice(), &history.sizes));
    let text = render(alloc, &history)?;
    assert!(rt; text.as_slice() == lines.as_bytes());
    let written = render_json(alloc, &history)?;
    assert!(rt; written.as_slice() == json.as_bytes());
    Ok(Value::from_slice(alloc, written.as_slice())?)
}

// Tells that the JSON value has this number, or this text, at this place.
fn has(rt: &impl Abort, value: &Value, place: &str, n: u64) {
    assert!(rt;
        value.pointer(place).and_then(Value::as_u64) == Some(n),
        "{place}"
    );
}

fn says(rt: &impl Abort, value: &Value, place: &str, text: &str) {
    assert!(rt;
        value.pointer(place).and_then(Value::as_str) == Some(text),
        "{place}"
    );
}

#[test]
fn one_request_is_reported(rt: HostRuntime) -> Result<(), Fail> {
    let alloc = rt.alloc();
    let key = latches_of(alloc, Access::Write, b"a", b"")?;
    let mut entries = Vec::new(alloc);
    entries.push(begin(alloc, 1, 0, Mode::Acquire, Policy::Wait, key)?)?;
    entries.push(end(1, Grant::Waited(1), Cause::None, Fault::None))?;
    let value = shows(
        &rt,
        alloc,
        entries,
        "latch report 1\nbegin 1 lane=0 session=1 line=2 acquire wait before=- w:61\nend 1 - - waited=1\n\
         requests 1 granted 1 checked 0 poisoned 0 cancelled 0 never 0\n",
        "{\"entries\":[{\"before\":[],\"begin\":1,\"lane\":0,\"latches\":[\"w:61\"],\"line\":2,\"mode\":\"acquire\",\"policy\":\"wait\",\"session\":1},\
         {\"cause\":\"-\",\"end\":1,\"fault\":\"-\",\"grant\":\"waited=1\",\"latches\":[]}],\
         \"report\":1,\"summary\":{\"cancelled\":0,\"checked\":0,\"granted\":1,\"never\":0,\"poisoned\":0,\"requests\":1}}\n",
    )?;
    has(&rt, &value, "/report", 1);
    has(&rt, &value, "/entries/0/line", 2);
    says(&rt, &value, "/entries/0/latches/0", "w:61");
    says(&rt, &value, "/entries/1/grant", "waited=1");
    Ok(())
}

#[test]
fn a_cancelled_request_is_reported(rt: HostRuntime) -> Result<(), Fail> {
    let alloc = rt.alloc();
    let key = latches_of(alloc, Access::Write, b"a", b"")?;
    let again = key.copy(alloc)?;
    let mut entries = Vec::new(alloc);
    entries.push(begin(alloc, 1, 0, Mode::Acquire, Policy::Wait, key)?)?;
    entries.push(begin(alloc, 2, 1, Mode::Acquire, Policy::Wait, again)?)?;
    entries.push(end(2, Grant::Never, Cause::None, Fault::Cancelled(2)))?;
    entries.push(end(1, Grant::Waited(1), Cause::None, Fault::None))?;
    let value = shows(
        &rt,
        alloc,
        entries,
        "latch report 1\nbegin 1 lane=0 session=1 line=2 acquire wait before=- w:61\n\
         begin 2 lane=1 session=2 line=3 acquire wait before=1 w:61\nend 2 - cancelled=2 never\nend 1 - - waited=1\n\
         requests 2 granted 1 checked 0 poisoned 0 cancelled 1 never 0\n",
        "{\"entries\":[{\"before\":[],\"begin\":1,\"lane\":0,\"latches\":[\"w:61\"],\"line\":2,\"mode\":\"acquire\",\"policy\":\"wait\",\"session\":1},\
         {\"before\":[1],\"begin\":2,\"lane\":1,\"latches\":[\"w:61\"],\"line\":3,\"mode\":\"acquire\",\"policy\":\"wait\",\"session\":2},\
         {\"cause\":\"-\",\"end\":2,\"fault\":\"cancelled=2\",\"grant\":\"never\",\"latches\":[]},\
         {\"cause\":\"-\",\"end\":1,\"fault\":\"-\",\"grant\":\"waited=1\",\"latches\":[]}],\
         \"report\":1,\"summary\":{\"cancelled\":1,\"checked\":0,\"granted\":1,\"never\":0,\"poisoned\":0,\"requests\":2}}\n",
    )?;
    has(&rt, &value, "/entries/1/before/0", 1);
    says(&rt, &value, "/entries/2/fault", "cancelled=2");
    has(&rt, &value, "/summary/cancelled", 1);
    Ok(())
}

#[test]
fn checks_and_poison_are_reported(rt: HostRuntime) -> Result<(), Fail> {
    let alloc = rt.alloc();
    let held = latches_of(alloc, Access::Write, b"p", b"")?;
    let looked = held.copy(alloc)?;
    let wide = latches_of(alloc, Access::Read, b"a", b"z")?;
    let asked = latches_of(alloc, Access::Read, b"a", b"d")?;
    let mut entries = Vec::new(alloc);
    entries.push(begin(alloc, 1, 0, Mode::Acquire, Policy::Error, held)?)?;
    entries.push(begin(alloc, 2, 1, Mode::Optimistic, Policy::Wait, wide)?)?;
    entries.push(end(2, Grant::Checked(asked), Cause::None, Fault::None))?;
    entries.push(begin(alloc, 3, 1, Mode::Look, Policy::Wait, looked)?)?;
    entries.push(end(3, Grant::Never, Cause::From(1), Fault::None))?;
    entries.push(end(1, Grant::Waited(1), Cause::Called, Fault::None))?;
    let value = shows(
        &rt,
        alloc,
        entries,
        "latch report 1\nbegin 1 lane=0 session=1 line=2 acquire error before=- w:70\n\
         begin 2 lane=1 session=2 line=3 optimistic wait before=1 r:61-7a\nend 2 - - checked r:61-64\n\
         begin 3 lane=1 session=3 line=4 look wait before=1 w:70\nend 3 from=1 - never\nend 1 called - waited=1\n\
         requests 3 granted 1 checked 1 poisoned 0 cancelled 0 never 1\n",
        "{\"entries\":[{\"before\":[],\"begin\":1,\"lane\":0,\"latches\":[\"w:70\"],\"line\":2,\"mode\":\"acquire\",\"policy\":\"error\",\"session\":1},\
         {\"before\":[1],\"begin\":2,\"lane\":1,\"latches\":[\"r:61-7a\"],\"line\":3,\"mode\":\"optimistic\",\"policy\":\"wait\",\"session\":2},\
         {\"cause\":\"-\",\"end\":2,\"fault\":\"-\",\"grant\":\"checked\",\"latches\":[\"r:61-64\"]},\
         {\"before\":[1],\"begin\":3,\"lane\":1,\"latches\":[\"w:70\"],\"line\":4,\"mode\":\"look\",\"policy\":\"wait\",\"session\":3},\
         {\"cause\":\"from=1\",\"end\":3,\"fault\":\"-\",\"grant\":\"never\",\"latches\":[]},\
         {\"cause\":\"called\",\"end\":1,\"fault\":\"-\",\"grant\":\"waited=1\",\"latches\":[]}],\
         \"report\":1,\"summary\":{\"cancelled\":0,\"checked\":1,\"granted\":1,\"never\":1,\"poisoned\":0,\"requests\":3}}\n",
    )?;
    says(&rt, &value, "/entries/2/latches/0", "r:61-64");
    says(&rt, &value, "/entries/4/cause", "from=1");
    has(&rt, &value, "/summary/never", 1);
    Ok(())
}
