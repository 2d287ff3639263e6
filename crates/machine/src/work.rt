// What a call does to all of the store but the lent row of records; from what was found of that row.
ghost use Rattle.std.specs.Prelude.{◌<◌, ◌≡◌, false, not, [], ◌∷◌, length, replicate, eqb};
ghost use Rattle.dtml.specs.declared.Phase.TheVariants.{Fresh};
ghost use Rattle.dtml.specs.Store.{tx as tx_of};
ghost use Rattle.dtml.specs.First.{any_of};
ghost use Rattle.dtml.specs.Checks.{unfit_rows};
ghost use Rattle.dtml.specs.Handed.{place_of, slot_of};
ghost use Rattle.parts.specs.Lent.{memory_of, SameRows};
ghost use Rattle.machine.specs.Working.{renewed_of, renewed, worked_of, worked, turn_worked, event_worked};

use crate::{After, Held};
use dtml::{Answer, Answered, Call, Recovery, Refusal, Tx};
use lines::call_one;
use lines::turn::Turn;
use parts::fit::unfit_rows;
use parts::memory::Memory;
use system::{Event, call_on_memory};

// The place of the record of an identifier; 0 where there is none. No `Option`: the call is then handed the first record, and gives it back as it is.
pub fn place_of(id: u64) -> usize
    ensures { (result ≡ place_of id) × (result < 64) }
{
    if 64 <= id {
        return 0;
    }
    id as usize
}

// The place of the record that a call is on; 0 where it is on none, as for an identifier that there is no record of.
pub fn slot(call: Call) -> usize
    ensures { (result ≡ slot_of call) × (result < 64) }
{
    match call {
        Call::On { id, .. } => place_of(id),
        Call::Of { .. } => 0,
    }
}

// What a call leaves beside the memory: its answer, where recovery stands, its record, and whether it was a crash, which reaches every record.
// A plain flag: what stands beside it is given either way.
#[derive(Clone, Copy)]
pub struct Worked {
    pub answer: Answered,
    pub recovery: Recovery,
    pub tx: Tx,
    pub crashed: bool,
}

fn left(answer: Answered, recovery: Recovery, tx: Tx) -> Worked
    ensures { result ≡ record { answer = answer; recovery = recovery; tx = tx; crashed = false } }
{
    Worked {
        answer,
        recovery,
        tx,
        crashed: false,
    }
}

fn by_turn(turn: Result<Turn, Refusal>, recovery: Recovery, tx: Tx) -> Worked
    ensures { result ≡ turn_worked turn recovery tx }
{
    match turn {
        Ok(turn) => left(Ok(turn.answer), recovery, turn.tx),
        Err(refusal) => left(Err(refusal), recovery, tx),
    }
}

fn by_event(event: Result<Event, Refusal>, recovery: Recovery, tx: Tx) -> Worked
    ensures { result ≡ event_worked event recovery tx }
{
    let taken = Ok(Answer::Taken { lines: 0 });
    match event {
        Ok(Event::Flushed) => left(taken, recovery, tx),
        Ok(Event::Crashed) => Worked {
            answer: taken,
            recovery: Recovery::C1,
            tx,
            crashed: true,
        },
        Ok(
            Event::RecoveryLines {
                answer,
                recovery: next,
                ..
            },
        ) => left(Ok(answer), next, tx),
        Err(refusal) => left(Err(refusal), recovery, tx),
    }
}

// A call; bad says that the row of records is unfit, and tx is the record that the call names.
pub fn work(memory: &mut Memory, recovery: Recovery, bad: bool, tx: Tx, call: Call) -> Worked
    ensures same { SameRows memory.old memory.new }
    ensures left { worked_of result (memory_of memory.new) ≡ worked (memory_of memory.old) recovery bad tx call }
{
    if bad {
        return left(Err(Refusal::Unfit), recovery, tx);
    }
    match call {
        Call::On { id, ask } => by_turn(call_one(memory, recovery, id, tx, ask), recovery, tx),
        Call::Of { sys } => by_event(call_on_memory(memory, recovery, sys), recovery, tx),
    }
}

pub fn zero(row: &mut [u32])
    ensures { row.new ≡ replicate (length row.old) 0 }
{
    row.fill(0);
}

// The conditions on the lengths, of the word rows and of a row of so many records. Making fresh looks at nothing else.
fn unfit_lengths(vol: usize, pers: usize, old: usize, txs: usize) -> bool
    ensures { result ≡ any_of (unfit_rows vol pers old ∷ not (eqb txs 64) ∷ []) }
{
    if unfit_rows(vol, pers, old) {
        return true;
    }
    txs != 64
}

// Making fresh, beside a row of so many records: the records are to be made fresh where the answer is no refusal. Rows and no `Memory`: nothing else is looked at.
pub fn renew(vol: &mut [u32], pers: &mut [u32], old: &mut [u32], held: Held, txs: usize) -> After
    ensures { renewed_of result vol.new pers.new old.new ≡ renewed vol.old pers.old old.old held txs }
{
    if unfit_lengths(vol.len(), pers.len(), old.len(), txs) {
        return After {
            answer: Err(Refusal::Unfit),
            held,
        };
    }
    zero(vol);
    zero(pers);
    zero(old);
    After {
        answer: Ok(Answer::Taken { lines: 0 }),
        held: Held::FRESH,
    }
}

// 64 fresh records.
pub fn blank() -> [Tx; 64]
    ensures { result ≡ replicate 64 (tx_of 0 Fresh) }
{
    [Tx::FRESH; 64]
}
