// The calls of the library `calls`, exported under the same names for a host in another language: a crate is a library or a static library, and not both.
// Each promises, word for word, what the call of the library promises, whose comments say the rest.

#![tactic(auto)]

mod events;

ghost use Rattle.std.specs.Prelude.{◌≡◌, []};
ghost use Rattle.dtml.specs.declared.Ask.TheVariants.{Begin as begin, Read as read, Write as write, Commit as commit, Step as step};
ghost use Rattle.dtml.specs.declared.Call.TheVariants.{On as on};
ghost use Rattle.numbers.specs.Numbers.{rows, call_numbers, given, gives};

#[unsafe(no_mangle)]
pub extern "C" fn register_begin(
    vol: &mut [u32],
    pers: &mut [u32],
    old: &mut [u32],
    held: &mut [u64],
    records: &mut [u32],
    id: u64,
) -> u64
    ensures { given result [] (rows vol.new pers.new old.new held.new records.new)
        ≡ gives [] (call_numbers (rows vol.old pers.old old.old held.old records.old) (on id begin)) }
{
    calls::register_begin(vol, pers, old, held, records, id)
}

#[unsafe(no_mangle)]
pub extern "C" fn register_read(
    vol: &mut [u32],
    pers: &mut [u32],
    old: &mut [u32],
    held: &mut [u64],
    records: &mut [u32],
    id: u64,
    word: u32,
) -> u64
    ensures { given result [] (rows vol.new pers.new old.new held.new records.new)
        ≡ gives [] (call_numbers (rows vol.old pers.old old.old held.old records.old) (on id (read word))) }
{
    calls::register_read(vol, pers, old, held, records, id, word)
}

#[unsafe(no_mangle)]
pub extern "C" fn register_write(
    vol: &mut [u32],
    pers: &mut [u32],
    old: &mut [u32],
    held: &mut [u64],
    records: &mut [u32],
    id: u64,
    word: u32,
    value: u32,
) -> u64
    ensures { given result [] (rows vol.new pers.new old.new held.new records.new)
        ≡ gives [] (call_numbers (rows vol.old pers.old old.old held.old records.old) (on id (write word value))) }
{
    calls::register_write(vol, pers, old, held, records, id, word, value)
}

#[unsafe(no_mangle)]
pub extern "C" fn register_commit(
    vol: &mut [u32],
    pers: &mut [u32],
    old: &mut [u32],
    held: &mut [u64],
    records: &mut [u32],
    id: u64,
) -> u64
    ensures { given result [] (rows vol.new pers.new old.new held.new records.new)
        ≡ gives [] (call_numbers (rows vol.old pers.old old.old held.old records.old) (on id commit)) }
{
    calls::register_commit(vol, pers, old, held, records, id)
}

// One line of a transaction; the value is what was read, if the answer is 2.
#[unsafe(no_mangle)]
pub extern "C" fn register_step(
    vol: &mut [u32],
    pers: &mut [u32],
    old: &mut [u32],
    held: &mut [u64],
    records: &mut [u32],
    id: u64,
    value: &mut [u64],
) -> u64
    ensures { given result value.new (rows vol.new pers.new old.new held.new records.new)
        ≡ gives value.old (call_numbers (rows vol.old pers.old old.old held.old records.old) (on id step)) }
{
    calls::register_step(vol, pers, old, held, records, id, value)
}
