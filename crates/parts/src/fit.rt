// Tests of what a call is handed: what is unfit.
ghost use Rattle.std.specs.Prelude.{◌≡◌};
ghost use Rattle.bits.specs.Marks.{pick};
ghost use Rattle.dtml.specs.Checks.{unfit_rows, unfit_recovery, unfit_tx, unfit_beside, unfit_one, names_word, word_of, phase_past};

use dtml::{Phase, Recovery, Tx};
use marks::Marks;

// The lengths of the three word rows do not fit. They alone decide, also where a store is only made fresh, so they and no `Memory` are handed over.
pub fn unfit_rows(vol: usize, pers: usize, old: usize) -> bool
    ensures { result ≡ unfit_rows vol pers old }
{
    if vol != pers {
        return true;
    }
    if vol != old {
        return true;
    }
    if vol == 0 {
        return true;
    }
    256 < vol
}

// The word that a phase names, if it names one: an arm for each that does, as the definition has a clause for each.
fn word_of(p: Phase) -> Option<u32>
    ensures { result ≡ pick (names_word p) (Some (word_of p)) None }
{
    match p {
        Phase::R1 { word } => Some(word),
        Phase::W1 { word, .. } => Some(word),
        Phase::W2 { word, .. } => Some(word),
        Phase::W3 { word, .. } => Some(word),
        Phase::W4 { word, .. } => Some(word),
        Phase::W5 { word, .. } => Some(word),
        Phase::W6 { word, .. } => Some(word),
        Phase::W7 { word } => Some(word),
        _ => None,
    }
}

// The phase names a word at n or above.
pub fn phase_past(n: usize, p: Phase) -> bool
    ensures { result ≡ phase_past n p }
{
    word_of(p).is_some_and(|word| n <= word as usize)
}

// Recovery names a word at n or above, or is at C2 with no mark; an arm for each line, as the definition has a clause for each.
pub fn unfit_recovery(n: usize, marks: &Marks, recovery: Recovery) -> bool
    ensures { result ≡ unfit_recovery n marks.now recovery }
{
    match recovery {
        Recovery::Idle => false,
        Recovery::C1 => false,
        Recovery::C2 => marks::count(marks) == 0,
        Recovery::C3 { word, value: _ } => n <= word as usize,
        Recovery::C4 { word, value: _ } => n <= word as usize,
        Recovery::C5 { word, value: _ } => n <= word as usize,
        Recovery::C6 => false,
    }
}

pub fn unfit_tx(n: usize, tx: Tx) -> bool
    ensures { result ≡ unfit_tx n tx }
{
    if 65535 < tx.loc {
        return true;
    }
    phase_past(n, tx.phase)
}

// Unfit where recovery is idle, without a look at the records; vol, pers and old are the lengths of the three word rows.
pub fn unfit_idle(vol: usize, pers: usize, old: usize, marks: &Marks, glb: u32) -> bool
    ensures { result ≡ unfit_beside vol pers old marks.now glb Recovery.Idle }
{
    if unfit_rows(vol, pers, old) {
        return true;
    }
    if marks::stands_from(marks, vol as u64) {
        return true;
    }
    65535 < glb
}

// The same wherever recovery stands.
pub fn unfit_beside(
    vol: usize,
    pers: usize,
    old: usize,
    marks: &Marks,
    glb: u32,
    recovery: Recovery,
) -> bool
    ensures { result ≡ unfit_beside vol pers old marks.now glb recovery }
{
    if unfit_idle(vol, pers, old, marks, glb) {
        return true;
    }
    unfit_recovery(vol, marks, recovery)
}

// The same with one record.
pub fn unfit_one(
    vol: usize,
    pers: usize,
    old: usize,
    marks: &Marks,
    glb: u32,
    recovery: Recovery,
    tx: Tx,
) -> bool
    ensures { result ≡ unfit_one vol pers old marks.now glb recovery tx }
{
    if unfit_beside(vol, pers, old, marks, glb, recovery) {
        return true;
    }
    unfit_tx(vol, tx)
}
