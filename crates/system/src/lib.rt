// Any call on no record: a system flush, a crash, and the lines of recovery. It tests for fitness all that it is handed, the three word rows, the marks,
// the count and recovery, and answers for all arguments.

#![tactic(auto)]

mod recovery;
mod words;

ghost use Rattle.std.specs.Prelude.{◌≡◌};
ghost use Rattle.dtml.specs.Store.{memory};
ghost use Rattle.dtml.specs.Lines.{crash_tx};
ghost use Rattle.dtml.specs.declared.Sys.TheVariants.{Flush as flush_asked, Crash as crash_asked, Recover as recover_asked, RecoverUpTo as recover_up_to};
ghost use Rattle.dtml.specs.Checks.{unfit_beside};
ghost use Rattle.dtml.specs.Handed.{call_system};
ghost use Rattle.parts.specs.Lent.{memory_of, SameRows};
ghost use Rattle.system.specs.Recovering.{happened_of, refused_in};

use crate::recovery::{RecoveryTurn, recovery_line, recovery_lines};
use crate::words::copy;
use dtml::{Answer, Phase, Recovery, Refusal, Sys, Tx};
use marks::Marks;
use parts::answer::value;
use parts::fit::{unfit_beside, unfit_idle};
use parts::memory::Memory;
use parts::stages::{is_live, not_idle, stage};
use parts::words::flush_word;

// What a call that is carried out gives back: it was a flush, which leaves recovery where it stands; or a crash, which leaves it at C1 and reaches every
// record (`crash_tx`); or so many recovery lines. The lines stand beside the answer, since that of a single line has the value 0.
#[derive(Clone, Copy)]
pub enum Event {
    Flushed,
    Crashed,
    RecoveryLines {
        answer: Answer,
        lines: u64,
        recovery: Recovery,
    },
}

fn lines_done(turn: RecoveryTurn, lines: u64) -> Event
    ensures { result ≡ Event.RecoveryLines turn.answer lines turn.recovery }
{
    Event::RecoveryLines {
        answer: turn.answer,
        lines,
        recovery: turn.recovery,
    }
}

// Unfit without a look at the records, as `unfit_beside` says it; whether recovery is idle is asked first, since a flush mostly finds it so.
fn unfit_now(
    vol: usize,
    pers: usize,
    old: usize,
    marks: &Marks,
    glb: u32,
    recovery: Recovery,
) -> bool
    ensures { result ≡ unfit_beside vol pers old marks.now glb recovery }
{
    if not_idle(recovery) {
        return unfit_beside(vol, pers, old, marks, glb, recovery);
    }
    unfit_idle(vol, pers, old, marks, glb)
}

// Each call tests what it is handed: with the test before the match on the call, the table of recovery lines was in the way of every flush.
fn flush(
    vol: &[u32],
    pers: &mut [u32],
    old: &[u32],
    marks: &Marks,
    glb: u32,
    recovery: Recovery,
    word: u32,
) -> Result<Event, Refusal>
    ensures { happened_of result (memory vol.now pers.new old.now marks.now glb)
        ≡ call_system (memory vol.now pers.old old.now marks.now glb) recovery (flush_asked word) }
{
    if unfit_now(vol.len(), pers.len(), old.len(), marks, glb, recovery) {
        return Err(Refusal::Unfit);
    }
    if vol.len() <= word as usize {
        return Err(Refusal::NoWord);
    }
    flush_word(vol, pers, word as usize);
    Ok(Event::Flushed)
}

fn crash(
    vol: &mut [u32],
    pers: &[u32],
    old: &[u32],
    marks: &Marks,
    glb: &mut u32,
    recovery: Recovery,
) -> Result<Event, Refusal>
    ensures { happened_of result (memory vol.new pers.now old.now marks.now glb.new)
        ≡ call_system (memory vol.old pers.now old.now marks.now glb.old) recovery crash_asked }
{
    if unfit_beside(vol.len(), pers.len(), old.len(), marks, *glb, recovery) {
        return Err(Refusal::Unfit);
    }
    copy(vol, pers);
    *glb = 0;
    Ok(Event::Crashed)
}

// Unfit, or idle: there is nothing to recover.
fn recovers(
    vol: usize,
    pers: usize,
    old: usize,
    marks: &Marks,
    glb: u32,
    recovery: Recovery,
) -> Result<(), Refusal>
    ensures { result ≡ refused_in (unfit_beside vol pers old marks.now glb recovery) recovery }
{
    if unfit_beside(vol, pers, old, marks, glb, recovery) {
        return Err(Refusal::Unfit);
    }
    if !not_idle(recovery) {
        return Err(Refusal::Idle);
    }
    Ok(())
}

fn recover(
    vol: &mut [u32],
    pers: &mut [u32],
    old: &[u32],
    marks: &mut Marks,
    glb: &mut u32,
    recovery: Recovery,
) -> Result<Event, Refusal>
    ensures { happened_of result (memory vol.new pers.new old.now marks.new glb.new)
        ≡ call_system (memory vol.old pers.old old.now marks.old glb.old) recovery recover_asked }
{
    recovers(vol.len(), pers.len(), old.len(), &*marks, *glb, recovery)?;
    Ok(lines_done(recovery_line(vol, pers, old, marks, glb, recovery), 1))
}

// As many recovery lines as the allowance, or all that are left up to and with C6 if those are fewer. In both answers that
// the lines can have, the value is how many they are.
fn recover_up_to(
    vol: &mut [u32],
    pers: &mut [u32],
    old: &[u32],
    marks: &mut Marks,
    glb: &mut u32,
    recovery: Recovery,
    allowance: u64,
) -> Result<Event, Refusal>
    ensures { happened_of result (memory vol.new pers.new old.now marks.new glb.new)
        ≡ call_system (memory vol.old pers.old old.now marks.old glb.old) recovery (recover_up_to allowance) }
{
    recovers(vol.len(), pers.len(), old.len(), &*marks, *glb, recovery)?;
    let turn = recovery_lines(vol, pers, old, marks, glb, recovery, allowance);
    Ok(lines_done(turn, value(Ok(turn.answer))))
}

// The rows and what stands beside them go apart, since the old words are only read here: who calls need not have them to write.
pub fn call_system(
    vol: &mut [u32],
    pers: &mut [u32],
    old: &[u32],
    marks: &mut Marks,
    glb: &mut u32,
    recovery: Recovery,
    sys: Sys,
) -> Result<Event, Refusal>
    ensures { happened_of result (memory vol.new pers.new old.now marks.new glb.new)
        ≡ call_system (memory vol.old pers.old old.now marks.old glb.old) recovery sys }
{
    match sys {
        Sys::Flush { word } => flush(&*vol, pers, old, &*marks, *glb, recovery, word),
        Sys::Crash => crash(vol, &*pers, old, &*marks, glb, recovery),
        Sys::Recover => recover(vol, pers, old, marks, glb, recovery),
        Sys::RecoverUpTo { allowance } => recover_up_to(
            vol, pers, old, marks, glb, recovery, allowance,
        ),
    }
}

// The same for a caller that has all of it as one.
pub fn call_on_memory(memory: &mut Memory, recovery: Recovery, sys: Sys) -> Result<Event, Refusal>
    ensures same { SameRows memory.old memory.new }
    ensures left { happened_of result (memory_of memory.new) ≡ call_system (memory_of memory.old) recovery sys }
{
    let vol = &mut *memory.vol;
    let pers = &mut *memory.pers;
    let old = &mut *memory.old_words;
    let marks = &mut memory.marks;
    let glb = &mut memory.glb;
    call_system(vol, pers, &*old, marks, glb, recovery, sys)
}

// What a crash does to each record.
pub fn crash_tx(tx: Tx) -> Tx
    ensures { result ≡ crash_tx tx }
{
    if is_live(stage(tx.phase)) {
        return Tx {
            loc: tx.loc,
            phase: Phase::Aborted,
        };
    }
    tx
}
