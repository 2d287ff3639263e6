// The step machine on a store that is spelled as numbers, for hosts in other languages: numbers and rows of numbers are all that it is lent.
// specs/Numbers.antt says how a store is spelled and what a call comes to. Any numbers may be lent: those that spell no store are an unfit store.

#![tactic(auto)]

mod held;
mod tx_row;

ghost use Rattle.std.specs.Prelude.{◌≡◌, []};
ghost use Rattle.dtml.specs.Table.{reply};
ghost use Rattle.numbers.specs.Numbers.{rows, told, call_numbers, fresh_numbers, given, valued, gives};

use crate::held::{held_numbers, read_held};
use crate::tx_row::{crash_if, get, put, unfit_records};
use dtml::{Answer, Answered, Call, Refusal};
use machine::Held;
use machine::work::{renew, slot, work};
use parts::answer::{number, value as value_of};
use parts::memory::Memory;

// Gives the answer's number, and puts its value into the row's first number, if there is one and the call is not refused.
fn answered(value: &mut [u64], answer: Answered) -> u64
    ensures { (result ≡ (reply answer).number) × (value.new ≡ valued value.old (reply answer)) }
{
    if answer.is_ok() {
        if let Some(first) = value.first_mut() {
            *first = value_of(answer);
        }
    }
    number(answer)
}

// A call, with its answer as it is. The five rows are parameters of their own throughout, as a host hands them over.
// `machine::call` goes the same way over a row of records: what both do on a memory is `work`, and what stands around it is of each one's own rows.
fn carried_out(
    vol: &mut [u32],
    pers: &mut [u32],
    old: &mut [u32],
    held: &mut [u64],
    records: &mut [u32],
    asked: Call,
) -> Answered
    ensures { told (reply result) (rows vol.new pers.new old.new held.new records.new)
        ≡ call_numbers (rows vol.old pers.old old.old held.old records.old) asked }
{
    let here = read_held(&*held).ok_or(Refusal::Unfit)?;
    let records = records.as_mut_array::<256>().ok_or(Refusal::Unfit)?;
    if unfit_records(vol.len(), &*records) {
        return Err(Refusal::Unfit);
    }
    let marks = here.marks;
    let mut memory = Memory {
        vol,
        pers,
        old_words: old,
        marks,
        glb: here.glb,
    };
    let i = slot(asked);
    let tx = get(&*records, i);
    let done = work(&mut memory, here.recovery, false, tx, asked);
    put(records, i, done.tx);
    crash_if(records, done.crashed);
    let marks = memory.marks;
    let next = Held {
        marks,
        glb: memory.glb,
        recovery: done.recovery,
    };
    held.copy_from_slice(&held_numbers(next));
    done.answer
}

// A call.
pub fn call(
    vol: &mut [u32],
    pers: &mut [u32],
    old: &mut [u32],
    held: &mut [u64],
    records: &mut [u32],
    asked: Call,
    value: &mut [u64],
) -> u64
    ensures { given result value.new (rows vol.new pers.new old.new held.new records.new)
        ≡ gives value.old (call_numbers (rows vol.old pers.old old.old held.old records.old) asked) }
{
    answered(value, carried_out(vol, pers, old, held, records, asked))
}

// A call whose value is not asked for: for hosts that have no row for it.
pub fn asked(
    vol: &mut [u32],
    pers: &mut [u32],
    old: &mut [u32],
    held: &mut [u64],
    records: &mut [u32],
    asked: Call,
) -> u64
    ensures { given result [] (rows vol.new pers.new old.new held.new records.new)
        ≡ gives [] (call_numbers (rows vol.old pers.old old.old held.old records.old) asked) }
{
    number(carried_out(vol, pers, old, held, records, asked))
}

// Makes the store fresh, whatever the numbers were. The answer's value is always 0. Two lengths that no type says are tested first, one after the
// other. In a function of its own, as `carried_out` is, the promise would stand twice for one caller.
pub fn make_fresh(
    vol: &mut [u32],
    pers: &mut [u32],
    old: &mut [u32],
    held: &mut [u64],
    records: &mut [u32],
) -> u64
    ensures { given result [] (rows vol.new pers.new old.new held.new records.new)
        ≡ gives [] (fresh_numbers (rows vol.old pers.old old.old held.old records.old)) }
{
    if held.len() != 8 {
        return number(Err(Refusal::Unfit));
    }
    if records.len() != 256 {
        return number(Err(Refusal::Unfit));
    }
    // What is held goes as numbers here, which a refusal leaves as they were.
    match renew(vol, pers, old, Held::FRESH, 64).answer {
        // All numbers of a fresh store are 0.
        Ok(_) => {
            held.fill(0);
            records.fill(0);
            number(Ok(Answer::Taken { lines: 0 }))
        }
        Err(refusal) => number(Err(refusal)),
    }
}
