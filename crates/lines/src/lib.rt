// Any call on one transaction's record, by value: begin, read, write, commit, or a step, which is the one line at which it stands. It tests for fitness all that it
// is handed, the three word rows, the marks, the count, recovery and the record, and answers for all arguments.

#![tactic(auto)]

mod asks;
mod transaction;
pub mod turn;

ghost use Rattle.std.specs.Prelude.{◌≡◌, length};
ghost use Rattle.bits.specs.Marks.{pick};
ghost use Rattle.dtml.specs.Handed.{call_one};
ghost use Rattle.parts.specs.Lent.{memory_of, SameRows, unfit_with};
ghost use Rattle.lines.specs.Turning.{turned_of};
ghost use Rattle.lines.specs.Stepping.{ask_past, refusal_of};

use crate::transaction::line;
use crate::turn::Turn;
use dtml::{Ask, Recovery, Refusal, Tx};
use parts::fit::unfit_tx;
use parts::memory::Memory;
use parts::stages::not_idle;

// The call names a word at n or above.
fn past(n: usize, ask: Ask) -> bool
    ensures { result ≡ ask_past n ask }
{
    match ask {
        Ask::Read { word } | Ask::Write { word, .. } => n <= word as usize,
        Ask::Begin | Ask::Commit | Ask::Step => false,
    }
}

// Why a call on a record that there is none of is refused: what is unfit is told first. tx is any record.
fn nobody(memory: &Memory, recovery: Recovery, tx: Tx) -> Refusal
    ensures { result ≡ pick (unfit_with (memory_of memory.now) recovery tx) Refusal.Unfit Refusal.NoRecord }
{
    if !memory.unfit_one(recovery, tx) {
        return Refusal::NoRecord;
    }
    Refusal::Unfit
}

// Why any call on a record is refused while recovery is under way.
fn while_recovering(memory: &Memory, recovery: Recovery, tx: Tx, ask: Ask) -> Refusal
    ensures { result ≡ refusal_of (unfit_with (memory_of memory.now) recovery tx) (ask_past (length memory.now.vol.now) ask) }
{
    if memory.unfit_one(recovery, tx) {
        return Refusal::Unfit;
    }
    if past(memory.vol.len(), ask) {
        return Refusal::NoWord;
    }
    Refusal::NotIdle
}

// A call on a record that there is: that of identifier 0 or of any other.
fn call_there(memory: &mut Memory, recovery: Recovery, tx: Tx, ask: Ask) -> Result<Turn, Refusal>
    ensures same { SameRows memory.old memory.new }
    ensures left { turned_of result (memory_of memory.new) ≡ call_one (memory_of memory.old) recovery tx 0 ask }
{
    if not_idle(recovery) {
        return Err(while_recovering(&*memory, recovery, tx, ask));
    }
    if memory.unfit_idle() {
        return Err(Refusal::Unfit);
    }
    let n = memory.vol.len();
    if unfit_tx(n, tx) {
        return Err(Refusal::Unfit);
    }
    match ask {
        Ask::Begin => asks::begin(tx),
        Ask::Read { word } => asks::read(n, tx, word),
        Ask::Write { word, value } => asks::write(n, tx, word, value),
        Ask::Commit => asks::commit(tx),
        Ask::Step => line(memory, tx),
    }
}

// A call on the record of identifier id; where there is none, tx is any record.
pub fn call_one(
    memory: &mut Memory,
    recovery: Recovery,
    id: u64,
    tx: Tx,
    ask: Ask,
) -> Result<Turn, Refusal>
    ensures same { SameRows memory.old memory.new }
    ensures left { turned_of result (memory_of memory.new) ≡ call_one (memory_of memory.old) recovery tx id ask }
{
    if 64 <= id {
        return Err(nobody(&*memory, recovery, tx));
    }
    call_there(memory, recovery, tx, ask)
}
