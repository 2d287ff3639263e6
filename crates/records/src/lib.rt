// The transaction records, lent as one row, and all that takes the row apart. A row of any length may be lent: past its end a record reads as fresh and is
// not written, and only a row of 64 is fit.

#![tactic(auto)]

ghost use Rattle.std.specs.Prelude.{◌≡◌, not, [], ◌∷◌, length, set, eqb};
ghost use Rattle.bits.specs.Marks.{pick};
ghost use Rattle.dtml.specs.Store.{record_at};
ghost use Rattle.dtml.specs.Lines.{crash_txs};
ghost use Rattle.dtml.specs.First.{any_of};
ghost use Rattle.dtml.specs.Checks.{unfit_txs};
ghost use Rattle.records.specs.Row.{stored_if};

use dtml::Tx;
use parts::fit::unfit_tx;
use system::crash_tx;

// One expression of the library.
pub fn get(txs: &[Tx], i: usize) -> Tx
    ensures { result ≡ record_at txs.now i }
{
    txs.get(i).copied().unwrap_or(Tx::FRESH)
}

pub fn put(txs: &mut [Tx], i: usize, tx: Tx)
    ensures { txs.new ≡ set txs.old i tx }
{
    if i < txs.len() {
        txs[i] = tx;
    }
}

// The row is not 64 long, or some record of it is unfit beside rows of n words. A loop and no `any`, whose closure would have a clause that says its body once more.
#[tactic(auto, using(crate::proofs::Over::looking))]
pub fn unfit(txs: &[Tx], n: usize) -> bool
    ensures { result ≡ any_of (not (eqb (length txs.now) 64) ∷ unfit_txs n txs.now ∷ []) }
{
    if txs.len() != 64 {
        return true;
    }
    for tx in txs {
        if unfit_tx(n, *tx) {
            return true;
        }
    }
    false
}

// If there was a crash, what it leaves of the records. The test stands in here, so that only this crate takes a lent row apart.
#[tactic(auto, using(crate::proofs::Over::crashing))]
pub fn crash_if(txs: &mut [Tx], crashed: bool)
    ensures { txs.new ≡ pick crashed (crash_txs txs.old) txs.old }
{
    if crashed {
        for tx in txs.iter_mut() {
            *tx = crash_tx(*tx);
        }
    }
}

// The records of row, if there are any, over a lent row of 64.
pub fn store_if(txs: &mut [Tx], row: Option<[Tx; 64]>)
    ensures { txs.new ≡ stored_if row txs.old }
{
    if let Some(row) = row {
        if txs.len() == 64 {
            txs.copy_from_slice(&row);
        }
    }
}
