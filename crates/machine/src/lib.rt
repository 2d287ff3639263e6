// The step machine: every call of document 01 on a whole store, for all arguments. The three word rows and the row of the records are lent; the marks, the
// count and recovery go in and out by value. A call that is refused changes nothing lent and gives these back as they came.
// The rows are parameters of their own, since each is lent by itself. Beneath `call` they come in a `Memory`; as it has no recovery, and `Held` has no rows, each of
// the two is put together field by field.

#![tactic(auto)]

pub mod work;

ghost use Rattle.std.specs.Prelude.{◌≡◌};
ghost use Rattle.dtml.specs.Calls.{call as called, make_fresh};
ghost use Rattle.machine.specs.Given.{store_of, outcome_of};

use crate::work::{blank, renew, slot, work};
use dtml::{Answered, Call, Recovery, Tx};
use marks::Marks;
use parts::memory::Memory;

// What the store holds beside its rows.
#[derive(Clone, Copy)]
pub struct Held {
    pub marks: Marks,
    pub glb: u32,
    pub recovery: Recovery,
}

impl Held {
    // Of a fresh store.
    pub const FRESH: Held = Held {
        marks: [0; 4],
        glb: 0,
        recovery: Recovery::Idle,
    };
}

// What a call gives back.
#[derive(Clone, Copy)]
pub struct After {
    pub answer: Answered,
    pub held: Held,
}

// Making a store fresh. The row of records goes to `store_if`, so that only `records` takes it apart.
pub fn make_fresh(
    vol: &mut [u32],
    pers: &mut [u32],
    old: &mut [u32],
    txs: &mut [Tx],
    held: Held,
) -> After
    ensures { outcome_of vol.new pers.new old.new txs.new result
        ≡ make_fresh (store_of vol.old pers.old old.old held txs.old) }
{
    let after = renew(vol, pers, old, held, txs.len());
    match after.answer {
        Ok(_) => records::store_if(txs, Some(blank())),
        Err(_) => {}
    }
    after
}

// Begin, read, write, commit, a step; a system flush, a crash, a line of recovery, or as many as an allowance.
pub fn call(
    vol: &mut [u32],
    pers: &mut [u32],
    old: &mut [u32],
    txs: &mut [Tx],
    held: Held,
    asked: Call,
) -> After
    ensures { outcome_of vol.new pers.new old.new txs.new result
        ≡ called (store_of vol.old pers.old old.old held txs.old) asked }
{
    let i = slot(asked);
    let unfit = records::unfit(&*txs, vol.len());
    let tx = records::get(&*txs, i);
    let marks = held.marks;
    let mut memory = Memory {
        vol,
        pers,
        old_words: old,
        marks,
        glb: held.glb,
    };
    let done = work(&mut memory, held.recovery, unfit, tx, asked);
    records::put(txs, i, done.tx);
    records::crash_if(txs, done.crashed);
    let marks = memory.marks;
    After {
        answer: done.answer,
        held: Held {
            marks,
            glb: memory.glb,
            recovery: done.recovery,
        },
    }
}
