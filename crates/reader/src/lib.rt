// Reads a trace: its header, and the record at a place of it.

#![tactic(auto)]

ghost use Rattle.std.specs.Prelude.{◌≡◌};
ghost use Rattle.reader.specs.Said.{number_of};

mod decode;
pub mod place;
pub mod trace;

use dtml::Call;

// Why a trace is refused, or a record of it.
#[derive(Clone, Copy)]
pub enum TraceRefusal {
    UnknownKind,
    WrongLength,
    WrongVersion,
    CutShort,
    WrongSize,
    TooLong,
}

// A record of the trace: the call that it asks for, and how many bytes it has, its length bytes among them.
#[derive(Clone, Copy)]
pub struct Record {
    pub call: Call,
    pub bytes: usize,
}

// What stands at a place of the trace: nothing at its end, else a record, or one that is refused.
pub type Item = Option<Result<Record, TraceRefusal>>;

// What stands at a place, and the place after it: past a record that asks for something; else there is nothing to go past, and it is the same place.
// A place and not a `Reader`, as `place::Read` has it, for those who have the trace apart.
#[derive(Clone, Copy)]
pub struct Seen {
    pub item: Item,
    pub after: usize,
}

// The number that a refusal is printed as, by the same name as that of an answer, `parts::answer::number`; so it is no `From`.
pub fn number(refusal: TraceRefusal) -> u64
    ensures { result ≡ number_of refusal }
{
    match refusal {
        TraceRefusal::UnknownKind => 17,
        TraceRefusal::WrongLength => 18,
        TraceRefusal::WrongVersion => 19,
        TraceRefusal::CutShort => 20,
        TraceRefusal::WrongSize => 21,
        TraceRefusal::TooLong => 22,
    }
}
