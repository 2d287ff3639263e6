// The lines of a transaction, B1 to E3, on its record. Each is handed loc and what its phase carries, the word, the value or both. That the word is in the rows is
// part of `Room`, which `line` asks for; of that each line asks only what it needs. A function for each
// line, as the figure has them, also where two differ only in what they give.
ghost use Rattle.std.specs.Prelude.{◌≡◌, ◌+◌, ◌<◌, ◌≤◌, length, get_or, set, eqb};
ghost use Rattle.bits.specs.Marks.{pick, is_marked, mark_of, clear_of};
ghost use Rattle.dtml.specs.Lines.{even, flush_of};
ghost use Rattle.parts.specs.Lent.{memory_of, SameRows};
ghost use Rattle.lines.specs.Turning.{turn_of, turned_of};
ghost use Rattle.lines.specs.Room.{Room};
ghost use Rattle.lines.specs.Stepping.{step_of};

use crate::turn::{Turn, answered, to};
use dtml::{Answer, Phase, Refusal, Tx};
use marks::Marks;
use parts::memory::Memory;

fn b2(loc: u32) -> Turn
    ensures { result ≡ pick (even loc) (turn_of Answer.Begun loc Phase.Ready) (turn_of (Answer.Taken 0) loc Phase.B1) }
{
    if loc % 2 == 0 {
        answered(Answer::Begun, loc, Phase::Ready)
    } else {
        to(loc, Phase::B1)
    }
}

fn r1(memory: &Memory, loc: u32, word: u32) -> Turn
    requires { word < length memory.now.vol.now }
    ensures { result ≡ turn_of (Answer.Taken 0) loc (Phase.R2 (get_or memory.now.vol.now word 0)) }
{
    let value = memory.vol[word as usize];
    to(loc, Phase::R2 { value })
}

fn r2(glb: u32, loc: u32, value: u32) -> Turn
    ensures { result ≡ pick (eqb glb loc) (turn_of (Answer.Read value) loc Phase.Ready) (turn_of Answer.Aborted loc Phase.Aborted) }
{
    if glb == loc {
        answered(Answer::Read { value }, loc, Phase::Ready)
    } else {
        answered(Answer::Aborted, loc, Phase::Aborted)
    }
}

fn w1(loc: u32, word: u32, value: u32) -> Turn
    ensures { result ≡ pick (even loc) (turn_of (Answer.Taken 0) loc (Phase.W2 word value)) (turn_of (Answer.Taken 0) loc (Phase.W4 word value)) }
{
    if loc % 2 == 0 {
        to(loc, Phase::W2 { word, value })
    } else {
        to(loc, Phase::W4 { word, value })
    }
}

fn w2(glb: &mut u32, loc: u32, word: u32, value: u32) -> Turn
    requires { glb.old ≤ 65535 }
    ensures { (result ≡ pick (eqb glb.old loc) (turn_of (Answer.Taken 0) loc (Phase.W3 word value)) (turn_of Answer.Aborted loc Phase.Aborted))
        × (glb.new ≡ pick (eqb glb.old loc) (glb.old + 1) glb.old) }
{
    if *glb == loc {
        *glb += 1;
        to(loc, Phase::W3 { word, value })
    } else {
        answered(Answer::Aborted, loc, Phase::Aborted)
    }
}

fn w4(marks: &Marks, loc: u32, word: u32, value: u32) -> Turn
    ensures { result ≡ pick (is_marked marks.now word) (turn_of (Answer.Taken 0) loc (Phase.W6 word value)) (turn_of (Answer.Taken 0) loc (Phase.W5 word value)) }
{
    if marks::is_marked(marks, word as u64) {
        to(loc, Phase::W6 { word, value })
    } else {
        to(loc, Phase::W5 { word, value })
    }
}

// The word is entered in the log with its volatile word.
fn w5(memory: &mut Memory, loc: u32, word: u32, value: u32) -> Turn
    requires { (word < length memory.old.vol.now) × (word < length memory.old.old_words.now) }
    ensures same { SameRows memory.old memory.new }
    ensures turn { result ≡ turn_of (Answer.Taken 0) loc (Phase.W6 word value) }
    ensures entered { memory_of memory.new ≡ record (memory_of memory.old) {
      old = set memory.old.old_words.now word (get_or memory.old.vol.now word 0);
      marks = mark_of memory.old.marks word;
    } }
{
    let i = word as usize;
    memory.old_words[i] = memory.vol[i];
    marks::mark(&mut memory.marks, word as u64);
    to(loc, Phase::W6 { word, value })
}

fn w6(vol: &mut [u32], loc: u32, word: u32, value: u32) -> Turn
    requires { word < length vol.old }
    ensures { (result ≡ turn_of (Answer.Taken 0) loc (Phase.W7 word)) × (vol.new ≡ set vol.old word value) }
{
    vol[word as usize] = value;
    to(loc, Phase::W7 { word })
}

fn w7(memory: &mut Memory, loc: u32, word: u32) -> Turn
    requires { (word < length memory.old.vol.now) × (word < length memory.old.pers.now) }
    ensures same { SameRows memory.old memory.new }
    ensures turn { result ≡ turn_of Answer.Written loc Phase.Ready }
    ensures flushed { memory_of memory.new ≡ record (memory_of memory.old) { pers = flush_of memory.old.vol.now memory.old.pers.now word } }
{
    memory.flush_word(word as usize);
    answered(Answer::Written, loc, Phase::Ready)
}

fn e1(loc: u32) -> Turn
    ensures { result ≡ pick (even loc) (turn_of Answer.Committed loc Phase.Committed) (turn_of (Answer.Taken 0) loc Phase.E2) }
{
    if loc % 2 == 0 {
        answered(Answer::Committed, loc, Phase::Committed)
    } else {
        to(loc, Phase::E2)
    }
}

fn e2(marks: &mut Marks, loc: u32) -> Turn
    ensures { (result ≡ turn_of (Answer.Taken 0) loc Phase.E3) × (marks.new ≡ clear_of marks.old) }
{
    marks::clear(marks);
    to(loc, Phase::E3)
}

fn e3(glb: &mut u32, loc: u32) -> Turn
    requires { loc ≤ 65535 }
    ensures { (result ≡ turn_of Answer.Committed loc Phase.Committed) × (glb.new ≡ loc + 1) }
{
    *glb = loc + 1;
    answered(Answer::Committed, loc, Phase::Committed)
}

// One line, the one at which the record stands; where there is none it is refused.
pub(crate) fn line(memory: &mut Memory, tx: Tx) -> Result<Turn, Refusal>
    requires { Room (memory_of memory.old) tx }
    ensures same { SameRows memory.old memory.new }
    ensures stepped { turned_of result (memory_of memory.new) ≡ step_of (memory_of memory.old) tx }
{
    let loc = tx.loc;
    Ok(match tx.phase {
        Phase::Fresh | Phase::Ready | Phase::Committed | Phase::Aborted => {
            return Err(Refusal::NoLine);
        }
        Phase::B1 => to(memory.glb, Phase::B2),
        Phase::B2 => b2(loc),
        Phase::R1 { word } => r1(&*memory, loc, word),
        Phase::R2 { value } => r2(memory.glb, loc, value),
        Phase::W1 { word, value } => w1(loc, word, value),
        Phase::W2 { word, value } => w2(&mut memory.glb, loc, word, value),
        Phase::W3 { word, value } => to(loc + 1, Phase::W4 { word, value }),
        Phase::W4 { word, value } => w4(&memory.marks, loc, word, value),
        Phase::W5 { word, value } => w5(memory, loc, word, value),
        Phase::W6 { word, value } => w6(&mut *memory.vol, loc, word, value),
        Phase::W7 { word } => w7(memory, loc, word),
        Phase::E1 => e1(loc),
        Phase::E2 => e2(&mut memory.marks, loc),
        Phase::E3 => e3(&mut memory.glb, loc),
    })
}
