// The lines of recovery, C1 to C6.
ghost use Rattle.std.specs.Prelude.{◌≡◌, true, false, ◌<◌, length, get_or};
ghost use Rattle.bits.specs.Marks.{pick, lowest_of};
ghost use Rattle.dtml.specs.Store.{memory};
ghost use Rattle.dtml.specs.Lines.{any_mark, recovery_line};
ghost use Rattle.dtml.specs.Table.{says};
ghost use Rattle.dtml.specs.Checks.{unfit_beside, not_idle};
ghost use Rattle.dtml.specs.Calls.{up_to};
ghost use Rattle.system.specs.Recovering.{recovery_turn_of, recovery_did_of};

use dtml::{Answer, Recovery};
use marks::Marks;
use parts::stages::not_idle;
use parts::words::flush_word;

// What a line of recovery, or some, leave beside the memory.
#[derive(Clone, Copy)]
pub(crate) struct RecoveryTurn {
    pub answer: Answer,
    pub recovery: Recovery,
}

// A line that answers 0, with where recovery stands after it.
fn taken(recovery: Recovery) -> RecoveryTurn
    ensures { result ≡ recovery_turn_of (Answer.Taken 0) recovery }
{
    RecoveryTurn {
        answer: Answer::Taken { lines: 0 },
        recovery,
    }
}

fn c1(marks: &Marks) -> Recovery
    ensures { result ≡ pick (any_mark marks.now) Recovery.C2 Recovery.C6 }
{
    if marks::count(marks) != 0 {
        Recovery::C2
    } else {
        Recovery::C6
    }
}

fn c2(old: &[u32], marks: &Marks) -> Recovery
    requires { (lowest_of marks.now < length old.now) × (lowest_of marks.now < 256) }
    ensures { result ≡ Recovery.C3 (lowest_of marks.now) (get_or old.now (lowest_of marks.now) 0) }
{
    let w = marks::lowest(marks);
    let value = old[w as usize];
    let word = w as u32;
    Recovery::C3 { word, value }
}

// One line, the one at which recovery stands.
pub(crate) fn recovery_line(
    vol: &mut [u32],
    pers: &mut [u32],
    old: &[u32],
    marks: &mut Marks,
    glb: &mut u32,
    recovery: Recovery,
) -> RecoveryTurn
    requires { unfit_beside (length vol.old) (length pers.old) (length old.now) marks.old glb.old recovery ≡ false }
    ensures { recovery_did_of result (memory vol.new pers.new old.now marks.new glb.new)
        ≡ recovery_line (memory vol.old pers.old old.now marks.old glb.old) recovery }
{
    match recovery {
        Recovery::Idle => taken(Recovery::Idle),
        Recovery::C1 => taken(c1(&*marks)),
        Recovery::C2 => taken(c2(old, &*marks)),
        Recovery::C3 { word, value } => {
            vol[word as usize] = value;
            taken(Recovery::C4 { word, value })
        }
        Recovery::C4 { word, value } => {
            flush_word(&*vol, pers, word as usize);
            taken(Recovery::C5 { word, value })
        }
        Recovery::C5 { word, .. } => {
            marks::unmark(marks, word as u64);
            taken(Recovery::C1)
        }
        Recovery::C6 => {
            *glb = 0;
            RecoveryTurn {
                answer: Answer::Recovered { lines: 0 },
                recovery: Recovery::Idle,
            }
        }
    }
}

// What the lines carried out so far answer: 6 if C6 was among them, after which recovery is idle.
fn answered(recovery: Recovery, lines: u64) -> RecoveryTurn
    ensures { result ≡ recovery_turn_of (pick (not_idle recovery) (Answer.Taken lines) (Answer.Recovered lines)) recovery }
{
    let answer = if not_idle(recovery) {
        Answer::Taken { lines }
    } else {
        Answer::Recovered { lines }
    };
    RecoveryTurn { answer, recovery }
}

pub(crate) fn recovery_lines(
    vol: &mut [u32],
    pers: &mut [u32],
    old: &[u32],
    marks: &mut Marks,
    glb: &mut u32,
    recovery: Recovery,
    allowance: u64,
) -> RecoveryTurn
    requires { (unfit_beside (length vol.old) (length pers.old) (length old.now) marks.old glb.old recovery ≡ false) × (not_idle recovery ≡ true) }
    ensures { recovery_did_of result (memory vol.new pers.new old.now marks.new glb.new)
        ≡ up_to allowance (says 0 0) (memory vol.old pers.old old.now marks.old glb.old) recovery }
{
    let mut at = recovery;
    for lines in 0..allowance {
        if !not_idle(at) {
            return answered(at, lines);
        }
        at = recovery_line(vol, pers, old, marks, glb, at).recovery;
    }
    answered(at, allowance)
}
