// Phases and recovery as numbers, for hosts in other languages; specs/Spelling.antt has the table of both.
// Each has its own table both ways; a trait over the two would only name the four functions again, so there is none. They have the names of the
// definitions: `From` would name none, and `TryFrom` would refuse what is read here as fresh or idle.

#![tactic(auto)]

ghost use Rattle.std.specs.Prelude.{◌≡◌};
ghost use Rattle.spelling.specs.Spelling.{spell_phase, read_phase, spell_recovery, read_recovery, same_spelling};

use dtml::{Phase, Recovery};

// What a phase or recovery is spelled by: its number, its word and its value, 0 where it has none.
#[derive(Clone, Copy, PartialEq, Eq)]
pub struct Spelt {
    pub number: u32,
    pub word: u32,
    pub value: u32,
}

pub fn spelt_by(number: u32, word: u32, value: u32) -> Spelt
    ensures { result ≡ record { number = number; word = word; value = value } }
{
    Spelt {
        number,
        word,
        value,
    }
}

pub fn spell_phase(p: Phase) -> Spelt
    ensures { result ≡ spell_phase p }
{
    match p {
        Phase::Fresh => spelt_by(0, 0, 0),
        Phase::Ready => spelt_by(1, 0, 0),
        Phase::Committed => spelt_by(2, 0, 0),
        Phase::Aborted => spelt_by(3, 0, 0),
        Phase::B1 => spelt_by(4, 0, 0),
        Phase::B2 => spelt_by(5, 0, 0),
        Phase::R1 { word } => spelt_by(6, word, 0),
        Phase::R2 { value } => spelt_by(7, 0, value),
        Phase::W1 { word, value } => spelt_by(8, word, value),
        Phase::W2 { word, value } => spelt_by(9, word, value),
        Phase::W3 { word, value } => spelt_by(10, word, value),
        Phase::W4 { word, value } => spelt_by(11, word, value),
        Phase::W5 { word, value } => spelt_by(12, word, value),
        Phase::W6 { word, value } => spelt_by(13, word, value),
        Phase::W7 { word } => spelt_by(14, word, 0),
        Phase::E1 => spelt_by(15, 0, 0),
        Phase::E2 => spelt_by(16, 0, 0),
        Phase::E3 => spelt_by(17, 0, 0),
    }
}

// The phase of that number, with the word and the value that it carries; Fresh where no phase has it. No `Option`: whoever asks if
// the numbers spell a phase spells again what was read, and compares number, word and value at once (`numbers`).
#[tactic(auto, using(crate::proofs::Rest::no_phase), unfolding(crate::specs::Spelling::read_phase))]
pub fn read_phase(s: Spelt) -> Phase
    ensures { result ≡ read_phase s }
{
    let Spelt {
        number,
        word,
        value,
    } = s;
    match number {
        0 => Phase::Fresh,
        1 => Phase::Ready,
        2 => Phase::Committed,
        3 => Phase::Aborted,
        4 => Phase::B1,
        5 => Phase::B2,
        6 => Phase::R1 { word },
        7 => Phase::R2 { value },
        8 => Phase::W1 { word, value },
        9 => Phase::W2 { word, value },
        10 => Phase::W3 { word, value },
        11 => Phase::W4 { word, value },
        12 => Phase::W5 { word, value },
        13 => Phase::W6 { word, value },
        14 => Phase::W7 { word },
        15 => Phase::E1,
        16 => Phase::E2,
        17 => Phase::E3,
        _ => Phase::Fresh,
    }
}

pub fn spell_recovery(recovery: Recovery) -> Spelt
    ensures { result ≡ spell_recovery recovery }
{
    match recovery {
        Recovery::Idle => spelt_by(0, 0, 0),
        Recovery::C1 => spelt_by(1, 0, 0),
        Recovery::C2 => spelt_by(2, 0, 0),
        Recovery::C3 { word, value } => spelt_by(3, word, value),
        Recovery::C4 { word, value } => spelt_by(4, word, value),
        Recovery::C5 { word, value } => spelt_by(5, word, value),
        Recovery::C6 => spelt_by(6, 0, 0),
    }
}

// Recovery at that line, with the word and the value that it has chosen; idle where there is no such line, which is found as for a phase.
#[tactic(auto, using(crate::proofs::Rest::no_line), unfolding(crate::specs::Spelling::read_recovery))]
pub fn read_recovery(s: Spelt) -> Recovery
    ensures { result ≡ read_recovery s }
{
    let Spelt {
        number,
        word,
        value,
    } = s;
    match number {
        0 => Recovery::Idle,
        1 => Recovery::C1,
        2 => Recovery::C2,
        3 => Recovery::C3 { word, value },
        4 => Recovery::C4 { word, value },
        5 => Recovery::C5 { word, value },
        6 => Recovery::C6,
        _ => Recovery::Idle,
    }
}

// The derived equality, by its name in the definitions.
#[tactic(auto, unfolding(crate::specs::Spelling::same_spelling))]
pub fn same_spelling(a: Spelt, b: Spelt) -> bool
    ensures { result ≡ same_spelling a b }
{
    a == b
}
