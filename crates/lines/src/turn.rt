// What a call on one transaction's record leaves of it, and the makers of it.
ghost use Rattle.std.specs.Prelude.{◌≡◌};
ghost use Rattle.lines.specs.Turning.{turn_of};

use dtml::{Answer, Phase, Tx};

// The answer of a call that was carried out, and the record after it.
#[derive(Clone, Copy)]
pub struct Turn {
    pub answer: Answer,
    pub tx: Tx,
}

// To the next line, with nothing to report.
pub(crate) fn to(loc: u32, phase: Phase) -> Turn
    ensures { result ≡ turn_of (Answer.Taken 0) loc phase }
{
    answered(Answer::Taken { lines: 0 }, loc, phase)
}

pub(crate) fn answered(answer: Answer, loc: u32, phase: Phase) -> Turn
    ensures { result ≡ turn_of answer loc phase }
{
    Turn {
        answer,
        tx: Tx { loc, phase },
    }
}
