// What happens to a store as a whole, exported.
ghost use Rattle.std.specs.Prelude.{◌≡◌, []};
ghost use Rattle.dtml.specs.declared.Sys.TheVariants.{Flush as flush, Crash as crash, Recover as recover, RecoverUpTo as recover_up_to};
ghost use Rattle.dtml.specs.declared.Call.TheVariants.{Of as sys};
ghost use Rattle.numbers.specs.Numbers.{rows, call_numbers, fresh_numbers, given, gives};

// Makes the store fresh, whatever the numbers were; answers 9 to rows of the wrong length.
#[unsafe(no_mangle)]
pub extern "C" fn register_make_fresh(
    vol: &mut [u32],
    pers: &mut [u32],
    old: &mut [u32],
    held: &mut [u64],
    records: &mut [u32],
) -> u64
    ensures { given result [] (rows vol.new pers.new old.new held.new records.new)
        ≡ gives [] (fresh_numbers (rows vol.old pers.old old.old held.old records.old)) }
{
    calls::events::register_make_fresh(vol, pers, old, held, records)
}

#[unsafe(no_mangle)]
pub extern "C" fn register_flush(
    vol: &mut [u32],
    pers: &mut [u32],
    old: &mut [u32],
    held: &mut [u64],
    records: &mut [u32],
    word: u32,
) -> u64
    ensures { given result [] (rows vol.new pers.new old.new held.new records.new)
        ≡ gives [] (call_numbers (rows vol.old pers.old old.old held.old records.old) (sys (flush word))) }
{
    calls::events::register_flush(vol, pers, old, held, records, word)
}

#[unsafe(no_mangle)]
pub extern "C" fn register_crash(
    vol: &mut [u32],
    pers: &mut [u32],
    old: &mut [u32],
    held: &mut [u64],
    records: &mut [u32],
) -> u64
    ensures { given result [] (rows vol.new pers.new old.new held.new records.new)
        ≡ gives [] (call_numbers (rows vol.old pers.old old.old held.old records.old) (sys crash)) }
{
    calls::events::register_crash(vol, pers, old, held, records)
}

// One line of recovery.
#[unsafe(no_mangle)]
pub extern "C" fn register_recover(
    vol: &mut [u32],
    pers: &mut [u32],
    old: &mut [u32],
    held: &mut [u64],
    records: &mut [u32],
) -> u64
    ensures { given result [] (rows vol.new pers.new old.new held.new records.new)
        ≡ gives [] (call_numbers (rows vol.old pers.old old.old held.old records.old) (sys recover)) }
{
    calls::events::register_recover(vol, pers, old, held, records)
}

// As many recovery lines as the allowance, or all that are left if those are fewer; the value is how many were carried out.
#[unsafe(no_mangle)]
pub extern "C" fn register_recover_up_to(
    vol: &mut [u32],
    pers: &mut [u32],
    old: &mut [u32],
    held: &mut [u64],
    records: &mut [u32],
    allowance: u64,
    value: &mut [u64],
) -> u64
    ensures { given result value.new (rows vol.new pers.new old.new held.new records.new)
        ≡ gives value.old (call_numbers (rows vol.old pers.old old.old held.old records.old) (sys (recover_up_to allowance))) }
{
    calls::events::register_recover_up_to(vol, pers, old, held, records, allowance, value)
}
