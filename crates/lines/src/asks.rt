// What is left to check of begin, read, write and commit once what was handed in was found fit and recovery idle. One that is taken puts the record at its first line.
ghost use Rattle.std.specs.Prelude.{◌≡◌, Ok, Err, leb};
ghost use Rattle.bits.specs.Marks.{pick};
ghost use Rattle.dtml.specs.declared.Answer.TheVariants.{Taken};
ghost use Rattle.dtml.specs.Lines.{stage as stage_of};
ghost use Rattle.dtml.specs.Checks.{is_fresh, is_ready};
ghost use Rattle.lines.specs.Turning.{turn_of};

use crate::turn::{Turn, to};
use dtml::{Phase, Refusal, Tx};
use parts::stages::{is_fresh, is_ready, stage};

// Apart from `invoke`: another stage is asked for, and another refusal given.
pub(crate) fn begin(tx: Tx) -> Result<Turn, Refusal>
    ensures { result ≡ pick (is_fresh (stage_of tx.phase)) (Ok (turn_of (Taken 0) tx.loc Phase.B1)) (Err Refusal.NotFresh) }
{
    if !is_fresh(stage(tx.phase)) {
        return Err(Refusal::NotFresh);
    }
    Ok(to(tx.loc, Phase::B1))
}

// A record that is ready goes to this line.
fn invoke(tx: Tx, line: Phase) -> Result<Turn, Refusal>
    ensures { result ≡ pick (is_ready (stage_of tx.phase)) (Ok (turn_of (Taken 0) tx.loc line)) (Err Refusal.NotReady) }
{
    if !is_ready(stage(tx.phase)) {
        return Err(Refusal::NotReady);
    }
    Ok(to(tx.loc, line))
}

// Rows of n words have the word.
fn there(n: usize, word: u32) -> Result<(), Refusal>
    ensures { result ≡ pick (leb n word) (Err Refusal.NoWord) (Ok tt) }
{
    if n <= word as usize {
        return Err(Refusal::NoWord);
    }
    Ok(())
}

// Of rows of n words.
pub(crate) fn read(n: usize, tx: Tx, word: u32) -> Result<Turn, Refusal>
    ensures { result ≡ pick (leb n word) (Err Refusal.NoWord)
        (pick (is_ready (stage_of tx.phase)) (Ok (turn_of (Taken 0) tx.loc (Phase.R1 word))) (Err Refusal.NotReady)) }
{
    there(n, word)?;
    invoke(tx, Phase::R1 { word })
}

pub(crate) fn write(n: usize, tx: Tx, word: u32, value: u32) -> Result<Turn, Refusal>
    ensures { result ≡ pick (leb n word) (Err Refusal.NoWord)
        (pick (is_ready (stage_of tx.phase)) (Ok (turn_of (Taken 0) tx.loc (Phase.W1 word value))) (Err Refusal.NotReady)) }
{
    there(n, word)?;
    invoke(tx, Phase::W1 { word, value })
}

pub(crate) fn commit(tx: Tx) -> Result<Turn, Refusal>
    ensures { result ≡ pick (is_ready (stage_of tx.phase)) (Ok (turn_of (Taken 0) tx.loc Phase.E1)) (Err Refusal.NotReady) }
{
    invoke(tx, Phase::E1)
}
