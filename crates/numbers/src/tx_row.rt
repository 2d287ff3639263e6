// The row of records: four numbers each, loc, the number of the phase, its word and its value.
// `records` has `get`, `put`, `crash_if` and the test for a row of records. Here four numbers may spell none: a trait for both would have these methods, each with
// two bodies of the same length, and laws besides.
ghost use Rattle.std.specs.Prelude.{◌*◌, ◌<◌, ◌≡◌};
ghost use Rattle.bits.specs.Marks.{pick};
ghost use Rattle.dtml.specs.Store.{record_at};
ghost use Rattle.numbers.specs.Numbers.{spell_tx, read_txs};
ghost use Rattle.numbers.specs.Ways.{tx_of, put_tx, unfit_numbers, unfit_records, crash_numbers};

use dtml::Tx;
use parts::fit::unfit_tx;
use spelling::{read_phase, spell_phase, spelt_by};
use system::crash_tx;

// Any four numbers can be read.
fn tx_of(numbers: [u32; 4]) -> Tx
    ensures { result ≡ tx_of numbers }
{
    let [loc, number, word, value] = numbers;
    Tx {
        loc,
        phase: read_phase(spelt_by(number, word, value)),
    }
}

fn tx_numbers(tx: Tx) -> [u32; 4]
    ensures { result ≡ spell_tx tx }
{
    let s = spell_phase(tx.phase);
    [tx.loc, s.number, s.word, s.value]
}

// Record i.
#[tactic(auto, using(crate::proofs::Fours::read_is))]
pub(crate) fn get(records: &[u32; 256], i: usize) -> Tx
    requires { i < 64 }
    ensures { result ≡ record_at (read_txs records.now) i }
{
    let (fours, _) = records.as_chunks::<4>();
    tx_of(fours[i])
}

// Puts record i back, number by number: since after `as_chunks_mut` only the row's length would be known, and a slice of four that is copied over is a loop to the compiler.
#[tactic(auto, using(crate::proofs::Fours::putting))]
pub(crate) fn put(records: &mut [u32; 256], i: usize, tx: Tx)
    requires { i < 64 }
    ensures { records.new ≡ put_tx records.old i tx }
{
    let at = 4 * i;
    let [loc, number, word, value] = tx_numbers(tx);
    records[at] = loc;
    records[at + 1] = number;
    records[at + 2] = word;
    records[at + 3] = value;
}

// The numbers spell no record, or an unfit one; the first is told by one comparison with how what was read is spelled.
#[tactic(auto, using(crate::proofs::Fours::same_is), unfolding(crate::specs::Ways::unfit_numbers))]
fn unfit_numbers(n: usize, numbers: [u32; 4]) -> bool
    ensures { result ≡ unfit_numbers n numbers }
{
    let tx = tx_of(numbers);
    if tx_numbers(tx) != numbers {
        return true;
    }
    unfit_tx(n, tx)
}

// Some do so. A loop and no `any`, as in `records::unfit`.
#[tactic(auto, using(crate::proofs::Fours::looking))]
pub(crate) fn unfit_records(n: usize, records: &[u32; 256]) -> bool
    ensures { result ≡ unfit_records n records.now }
{
    let (fours, _) = records.as_chunks::<4>();
    for numbers in fours {
        if unfit_numbers(n, *numbers) {
            return true;
        }
    }
    false
}

// If there was a crash, what it does to every record, by place, as `put` is.
#[tactic(auto, using(crate::proofs::Fours::crashes))]
pub(crate) fn crash_if(records: &mut [u32; 256], crashed: bool)
    ensures { records.new ≡ pick crashed (crash_numbers records.old) records.old }
{
    if crashed {
        for i in 0..64 {
            put(records, i, crash_tx(get(&*records, i)));
        }
    }
}
