// Replays a trace on a store that is lent. The rows are parameters of their own, since each is lent by itself; beneath they come in a `Memory`.

#![tactic(auto)]

mod finish;
mod run;

ghost use Rattle.std.specs.Prelude.{◌≡◌};
ghost use Rattle.machine.specs.Given.{store_of};
ghost use Rattle.day.specs.Replay.{replay as replayed};
ghost use Rattle.day.specs.Ends.{misfit, begun, begun_said, Ends, EndsBeside};

use crate::finish::ended;
use crate::run::run;
use day::{Ended, ReplayRefusal, Replayed, Stopped, Totals};
use dtml::Tx;
use machine::Held;
use machine::work::zero;
use parts::memory::Memory;
use reader::trace::header;
use text::Page;

// Some word row is not as long as the header's N, or the row of records is not 64 long; vol, pers, old and txs are the rows' lengths.
// Lengths and no rows, here and below, since the row of records may not be lent.
fn unfit_for(n: usize, vol: usize, pers: usize, old: usize, txs: usize) -> bool
    ensures { result ≡ misfit vol pers old txs n }
{
    vol != n || pers != n || old != n || txs != 64
}

// N, if the header is sound and rows of these lengths fit it.
fn begun(
    trace: &[u8],
    vol: usize,
    pers: usize,
    old: usize,
    txs: usize,
) -> Result<usize, ReplayRefusal>
    ensures { begun_said result ≡ begun trace.now vol pers old txs }
{
    let words = header(trace)?;
    if unfit_for(words, vol, pers, old, txs) {
        return Err(ReplayRefusal::Unfit);
    }
    Ok(words)
}

// Makes the store fresh and does the trace's records, one by one. The text is put into out from its start. Of the row of records, which is not lent, only
// the length is asked for, and what it is to have is given back: a program whose records are its own needs no more.
pub fn replay_beside(
    trace: &[u8],
    vol: &mut [u32],
    pers: &mut [u32],
    old: &mut [u32],
    held: Held,
    txs: usize,
    out: &mut [u8],
) -> Replayed
    ensures { EndsBeside trace.now (store_of vol.old pers.old old.old held) txs result
        vol.new pers.new old.new out.old out.new }
{
    let mut page = Page { bytes: out, at: 0 };
    match begun(trace, vol.len(), pers.len(), old.len(), txs) {
        Ok(_) => {
            // Not by `machine::work::renew`, which would test the lengths once more.
            zero(vol);
            zero(pers);
            zero(old);
            let marks = Held::FRESH.marks;
            let mut memory = Memory {
                vol,
                pers,
                old_words: old,
                marks,
                glb: 0,
            };
            run(trace, &mut memory, &mut page)
        }
        Err(refusal) => {
            let stopped = Some(Stopped { refusal, number: 0 });
            Replayed {
                ended: ended(&mut page, stopped, Totals::NONE, held),
                txs: None,
            }
        }
    }
}

// The same on a lent row of records, which is left as it is or has 64 records of the store after the trace.
pub fn replay(
    trace: &[u8],
    vol: &mut [u32],
    pers: &mut [u32],
    old: &mut [u32],
    txs: &mut [Tx],
    held: Held,
    out: &mut [u8],
) -> Ended
    ensures { Ends (replayed trace.now (store_of vol.old pers.old old.old held txs.old)) result
        vol.new pers.new old.new txs.new out.old out.new }
{
    let done = replay_beside(trace, vol, pers, old, held, txs.len(), out);
    records::store_if(txs, done.txs);
    done.ended
}
