// The calls for a host in another language, such as C or Rust: numbers and rows of numbers are all that it hands over.
// A row passes as a pointer and a length, and the rows of a call may not overlap. `numbers/specs/Numbers.antt` says how a store is spelled by the five rows: the
// three of words, 8 numbers beside them and 256 for the records; any lengths and any numbers may be handed over, and those that spell no store are answered 9.
// Each call gives the answer's number. Its value is 0 but for a step and for recovery with an allowance, so only these take a row for it: the value is put into
// the row's first number, if there is one; a refused call (9 or above) leaves that row, too, as it was.
// Here are the calls on a transaction's record, and in `events` those on none. The crate `calls_c` exports them under the same names.
// C has no enum with values, so each call has a function of its own, and they differ in what is asked alone.

#![tactic(auto)]

pub mod events;

ghost use Rattle.std.specs.Prelude.{◌≡◌, []};
ghost use Rattle.dtml.specs.declared.Ask.TheVariants.{Begin as begin, Read as read, Write as write, Commit as commit, Step as step};
ghost use Rattle.dtml.specs.declared.Call.TheVariants.{On as on};
ghost use Rattle.numbers.specs.Numbers.{rows, call_numbers, given, gives};

use dtml::{Ask, Call};
use numbers::{asked, call};

pub fn register_begin(
    vol: &mut [u32],
    pers: &mut [u32],
    old: &mut [u32],
    held: &mut [u64],
    records: &mut [u32],
    id: u64,
) -> u64
    ensures { given result [] (rows vol.new pers.new old.new held.new records.new)
        ≡ gives [] (call_numbers (rows vol.old pers.old old.old held.old records.old) (on id begin)) }
{
    let ask = Ask::Begin;
    asked(vol, pers, old, held, records, Call::On { id, ask })
}

pub fn register_read(
    vol: &mut [u32],
    pers: &mut [u32],
    old: &mut [u32],
    held: &mut [u64],
    records: &mut [u32],
    id: u64,
    word: u32,
) -> u64
    ensures { given result [] (rows vol.new pers.new old.new held.new records.new)
        ≡ gives [] (call_numbers (rows vol.old pers.old old.old held.old records.old) (on id (read word))) }
{
    let ask = Ask::Read { word };
    asked(vol, pers, old, held, records, Call::On { id, ask })
}

pub fn register_write(
    vol: &mut [u32],
    pers: &mut [u32],
    old: &mut [u32],
    held: &mut [u64],
    records: &mut [u32],
    id: u64,
    word: u32,
    value: u32,
) -> u64
    ensures { given result [] (rows vol.new pers.new old.new held.new records.new)
        ≡ gives [] (call_numbers (rows vol.old pers.old old.old held.old records.old) (on id (write word value))) }
{
    let ask = Ask::Write { word, value };
    asked(vol, pers, old, held, records, Call::On { id, ask })
}

pub fn register_commit(
    vol: &mut [u32],
    pers: &mut [u32],
    old: &mut [u32],
    held: &mut [u64],
    records: &mut [u32],
    id: u64,
) -> u64
    ensures { given result [] (rows vol.new pers.new old.new held.new records.new)
        ≡ gives [] (call_numbers (rows vol.old pers.old old.old held.old records.old) (on id commit)) }
{
    let ask = Ask::Commit;
    asked(vol, pers, old, held, records, Call::On { id, ask })
}

// One line of a transaction; the value is what was read, if the answer is 2.
pub fn register_step(
    vol: &mut [u32],
    pers: &mut [u32],
    old: &mut [u32],
    held: &mut [u64],
    records: &mut [u32],
    id: u64,
    value: &mut [u64],
) -> u64
    ensures { given result value.new (rows vol.new pers.new old.new held.new records.new)
        ≡ gives value.old (call_numbers (rows vol.old pers.old old.old held.old records.old) (on id step)) }
{
    let ask = Ask::Step;
    call(vol, pers, old, held, records, Call::On { id, ask }, value)
}
