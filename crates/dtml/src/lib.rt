// The types of the step machine: a transaction's record, recovery, and what a call answers.

#![tactic(auto)]

// Where a transaction stands. A line carries what it or a later line of its operation needs.
#[derive(Clone, Copy)]
pub enum Phase {
    Fresh,
    Ready,
    Committed,
    Aborted,
    B1,
    B2,
    R1 { word: u32 },
    R2 { value: u32 },
    W1 { word: u32, value: u32 },
    W2 { word: u32, value: u32 },
    W3 { word: u32, value: u32 },
    W4 { word: u32, value: u32 },
    W5 { word: u32, value: u32 },
    W6 { word: u32, value: u32 },
    W7 { word: u32 },
    E1,
    E2,
    E3,
}

// What the checks and a crash ask of a phase.
#[derive(Clone, Copy)]
pub enum Stage {
    Fresh,
    Ready,
    AtLine,
    Over,
}

// A transaction's record.
#[derive(Clone, Copy)]
pub struct Tx {
    pub loc: u32,
    pub phase: Phase,
}

impl Tx {
    pub const FRESH: Tx = Tx {
        loc: 0,
        phase: Phase::Fresh,
    };
}

// Where recovery stands; at C3 to C5, and only there, with the word and the value chosen.
#[derive(Clone, Copy)]
pub enum Recovery {
    Idle,
    C1,
    C2,
    C3 { word: u32, value: u32 },
    C4 { word: u32, value: u32 },
    C5 { word: u32, value: u32 },
    C6,
}

// What is asked of a transaction's record.
#[derive(Clone, Copy)]
pub enum Ask {
    Begin,
    Read { word: u32 },
    Write { word: u32, value: u32 },
    Commit,
    Step,
}

// What is asked of the store and of no record.
#[derive(Clone, Copy)]
pub enum Sys {
    Flush { word: u32 },
    Crash,
    Recover,
    RecoverUpTo { allowance: u64 },
}

// A call: on a record, or on none.
#[derive(Clone, Copy)]
pub enum Call {
    On { id: u64, ask: Ask },
    Of { sys: Sys },
}

// What a call that is carried out answers.
#[derive(Clone, Copy)]
pub enum Answer {
    Taken { lines: u64 },
    Begun,
    Read { value: u32 },
    Written,
    Committed,
    Aborted,
    Recovered { lines: u64 },
}

// Why a call is refused.
#[derive(Clone, Copy)]
pub enum Refusal {
    Unfit,
    NoWord,
    NoRecord,
    NotIdle,
    NotFresh,
    NotReady,
    NoLine,
    Idle,
}

// What a call answers; specs/Table.antt lists the number and the value of each case.
pub type Answered = Result<Answer, Refusal>;
