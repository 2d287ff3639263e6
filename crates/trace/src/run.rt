// The records of a trace, done one by one.
ghost use Rattle.std.specs.Prelude.{◌+◌, ◌≤◌, ◌<◌, ◌≡◌, Some, length, eqb};
ghost use Rattle.bits.specs.Marks.{pick, count_of};
ghost use Rattle.dtml.specs.Table.{reply};
ghost use Rattle.dtml.specs.declared.Call.{Call};
ghost use Rattle.dtml.specs.declared.Call.TheVariants.{On as on, Of as sys_asked};
ghost use Rattle.dtml.specs.Checks.{not_idle};
ghost use Rattle.parts.specs.Lent.{memory_of, SameRows};
ghost use Rattle.reader.specs.Trace.{script_of};
ghost use Rattle.text.specs.Buffer.{puts};
ghost use Rattle.text.specs.Page.{LendsSame, on_page};
ghost use Rattle.day.specs.Replay.{totals as totals_from, answer_text, done as done_of};
ghost use Rattle.day.specs.Counted.{Few};
ghost use Rattle.trace.specs.Turning.{call_moment, moment_of, OneLine, Brief, Through, Ready, Runs};

use crate::finish::{ended, stopped_at};
use day::{Replayed, Totals};
use dtml::{Answer, Answered, Ask, Call, Recovery, Refusal, Sys, Tx};
use lines::call_one;
use machine::Held;
use machine::work::{blank, slot};
use marks::Marks;
use parts::answer::{number, value};
use parts::memory::Memory;
use parts::stages::not_idle;
use reader::TraceRefusal;
use reader::place::{Reader, next};
use records::crash_if;
use system::{Event, call_on_memory};
use text::Page;

// A commit, 1, or none.
fn commits(answer: Answered) -> u64
    ensures { (result ≡ pick (eqb (reply answer).number 4) 1 0) × (result ≤ 1) }
{
    u64::from(matches!(answer, Ok(Answer::Committed)))
}

// The numbers of the T line after a call on a record. Here and below they are few by the trace, which is no longer than 65,536 bytes, and not by `Totals`, which
// counts without a bound. No methods, since `Totals` stands in `day`, which has no code of a replay.
fn turned(totals: Totals, answer: Answered) -> Totals
    requires { Few 65536 totals }
    ensures { result ≡ totals_from (totals.records + 1) totals.crashes totals.lines totals.cut (totals.committed + pick (eqb (reply answer).number 4) 1 0) }
{
    Totals {
        records: totals.records + 1,
        committed: totals.committed + commits(answer),
        ..totals
    }
}

// After a call on none: a crash, some recovery lines, words that a crash cut off.
fn added(totals: Totals, crashes: u64, lines: u64, cut: u64) -> Totals
    requires { Few 65536 totals × (crashes ≤ 1) × (lines ≤ 1) × (cut ≤ 256) }
    ensures { result ≡ totals_from (totals.records + 1) (totals.crashes + crashes) (totals.lines + lines) (totals.cut + cut) totals.committed }
{
    Totals {
        records: totals.records + 1,
        crashes: totals.crashes + crashes,
        lines: totals.lines + lines,
        cut: totals.cut + cut,
        ..totals
    }
}

// The words in the log, which a crash cuts off, unless recovery was under way already.
fn cut_by_crash(recovery: Recovery, marks: &Marks) -> u64
    ensures { (result ≡ pick (not_idle recovery) 0 (count_of marks.now)) × (result ≤ 256) }
{
    if not_idle(recovery) {
        return 0;
    }
    marks::count(marks)
}

// The line of a record that was answered other than 0. It and the next are two, so that `put_answer` has two callers: with one it is inlined into the test here, and
// the answer is then kept in memory.
fn put_answer_if(page: &mut Page, record_number: u64, answer: Answer)
    requires { record_number < 100000 }
    ensures same { LendsSame page.old page.new }
    ensures text { on_page page.new ≡ puts (on_page page.old) (answer_text record_number (reply (Ok answer))) }
    ensures brief { length (answer_text record_number (reply (Ok answer))) ≤ 30 }
{
    let n = number(Ok(answer));
    if n != 0 {
        page.put_answer(record_number, n, value(Ok(answer)));
    }
}

// The line of a record that was refused.
fn put_refusal(page: &mut Page, record_number: u64, refusal: Refusal)
    requires { record_number < 100000 }
    ensures same { LendsSame page.old page.new }
    ensures text { on_page page.new ≡ puts (on_page page.old) (answer_text record_number (reply (Err refusal))) }
    ensures brief { length (answer_text record_number (reply (Err refusal))) ≤ 30 }
{
    page.put_answer(record_number, number(Err(refusal)), value(Err(refusal)));
}

// What a record of the trace changes beside the memory: nothing; the transaction's record that was handed over; recovery; or, a crash, recovery and every record.
#[derive(Clone, Copy)]
pub(crate) enum Change {
    Nothing,
    Record { tx: Tx },
    Recovery { recovery: Recovery },
    Crash,
}

// What a record of the trace leaves beside the memory and the text.
#[derive(Clone, Copy)]
pub(crate) struct Moved {
    pub totals: Totals,
    pub change: Change,
}

// What all records leave beside the memory and the text: why the next one is refused, if the trace has not ended.
#[derive(Clone, Copy)]
pub(crate) struct Reached {
    pub refusal: Option<TraceRefusal>,
    pub totals: Totals,
    pub recovery: Recovery,
    pub txs: [Tx; 64],
}

// A call on a record is done on what it is handed, counted, and its line put.
fn on_record(
    memory: &mut Memory,
    page: &mut Page,
    totals: Totals,
    recovery: Recovery,
    tx: Tx,
    id: u64,
    ask: Ask,
) -> Moved
    requires { Few 65536 totals }
    ensures rows { SameRows memory.old memory.new }
    ensures page { LendsSame page.old page.new }
    ensures moves { moment_of result (memory_of memory.new) (on_page page.new) recovery tx
        ≡ call_moment (memory_of memory.old) recovery tx totals (on_page page.old) (on id ask) }
    ensures brief { Brief (memory_of memory.old) recovery tx totals (on id ask) }
{
    match call_one(memory, recovery, id, tx, ask) {
        Ok(turn) => {
            let totals = turned(totals, Ok(turn.answer));
            put_answer_if(page, totals.records, turn.answer);
            let change = Change::Record { tx: turn.tx };
            Moved { totals, change }
        }
        Err(refusal) => {
            let totals = turned(totals, Err(refusal));
            put_refusal(page, totals.records, refusal);
            let change = Change::Nothing;
            Moved { totals, change }
        }
    }
}

// The same of a call on none. It counts other numbers, by another law, so what looks alike in the two stands in each.
fn on_none(
    memory: &mut Memory,
    page: &mut Page,
    totals: Totals,
    recovery: Recovery,
    tx: Tx,
    sys: Sys,
) -> Moved
    requires { Few 65536 totals × OneLine (sys_asked sys) }
    ensures rows { SameRows memory.old memory.new }
    ensures page { LendsSame page.old page.new }
    ensures moves { moment_of result (memory_of memory.new) (on_page page.new) recovery tx
        ≡ call_moment (memory_of memory.old) recovery tx totals (on_page page.old) (sys_asked sys) }
    ensures brief { Brief (memory_of memory.old) recovery tx totals (sys_asked sys) }
{
    match call_on_memory(memory, recovery, sys) {
        Ok(Event::Flushed) => Moved {
            totals: added(totals, 0, 0, 0),
            change: Change::Nothing,
        },
        Ok(Event::Crashed) => Moved {
            totals: added(totals, 1, 0, cut_by_crash(recovery, &memory.marks)),
            change: Change::Crash,
        },
        Ok(
            Event::RecoveryLines {
                answer,
                lines,
                recovery: next,
            },
        ) => {
            let totals = added(totals, 0, lines, 0);
            put_answer_if(page, totals.records, answer);
            let change = Change::Recovery { recovery: next };
            Moved { totals, change }
        }
        Err(refusal) => {
            let totals = added(totals, 0, 0, 0);
            put_refusal(page, totals.records, refusal);
            let change = Change::Nothing;
            Moved { totals, change }
        }
    }
}

// One record of the trace; tx is the transaction's record that its call is on.
// Here and in the two above, the numbers, recovery and tx are no struct with the memory and the page: they go in by value, and what is changed comes back, so that the
// loop stores no more than that.
fn turn(
    memory: &mut Memory,
    page: &mut Page,
    totals: Totals,
    recovery: Recovery,
    tx: Tx,
    call: Call,
) -> Moved
    requires { Few 65536 totals × OneLine call }
    ensures rows { SameRows memory.old memory.new }
    ensures page { LendsSame page.old page.new }
    ensures moves { moment_of result (memory_of memory.new) (on_page page.new) recovery tx
        ≡ call_moment (memory_of memory.old) recovery tx totals (on_page page.old) call }
    ensures brief { Brief (memory_of memory.old) recovery tx totals call }
{
    match call {
        Call::On { id, ask } => on_record(memory, page, totals, recovery, tx, id, ask),
        Call::Of { sys } => on_none(memory, page, totals, recovery, tx, sys),
    }
}

// The loop holds the reader, which `next` gives back moved on past each record. Its breaks say why it ends, so that `next` is called at one place: with a second
// call, a replay took twice as long.
fn go_through(trace: &[u8], memory: &mut Memory, page: &mut Page) -> Reached
    requires { Ready trace.now (memory_of memory.old) page.old.at }
    ensures rows { SameRows memory.old memory.new }
    ensures page { LendsSame page.old page.new }
    ensures through { Through (done_of (length memory.old.vol.now) (script_of trace.now)) result
        (memory_of memory.new) page.old.bytes.now (on_page page.new) }
{
    let mut totals = Totals::NONE;
    let mut recovery = Recovery::Idle;
    let mut rows = blank();
    let mut reader = Reader { trace, at: 3 };
    let refusal = loop {
        let read = next(reader);
        let record = match read.item {
            Some(Ok(record)) => record,
            Some(Err(refusal)) => break Some(refusal),
            None => break None,
        };
        let i = slot(record.call);
        let moved = turn(memory, page, totals, recovery, rows[i], record.call);
        totals = moved.totals;
        reader = read.reader;
        match moved.change {
            Change::Nothing => {}
            Change::Record { tx } => rows[i] = tx,
            Change::Recovery { recovery: next } => recovery = next,
            Change::Crash => {
                recovery = Recovery::C1;
                // There was a crash: the test in `crash_if` is for those who lend a row.
                crash_if(&mut rows, true);
            }
        }
    };
    Reached {
        refusal,
        totals,
        recovery,
        txs: rows,
    }
}

pub(crate) fn run(trace: &[u8], memory: &mut Memory, page: &mut Page) -> Replayed
    requires { Ready trace.now (memory_of memory.old) page.old.at }
    ensures rows { SameRows memory.old memory.new }
    ensures page { LendsSame page.old page.new }
    ensures ends { Runs (done_of (length memory.old.vol.now) (script_of trace.now)) result
        (memory_of memory.new) page.old.bytes.now page.new.bytes.now }
{
    let done = go_through(trace, memory, page);
    let stopped = stopped_at(done.refusal, done.totals.records);
    let marks = memory.marks;
    let held = Held {
        marks,
        glb: memory.glb,
        recovery: done.recovery,
    };
    Replayed {
        ended: ended(page, stopped, done.totals, held),
        txs: Some(done.txs),
    }
}
