// An answer as document 01 has it: a number and a value.
ghost use Rattle.std.specs.Prelude.{◌≡◌};
ghost use Rattle.dtml.specs.Table.{reply};

use dtml::{Answer, Answered, Refusal};

// It and `value` are no `From`, which cannot be had for `Result`, a foreign type; and some ask for the number alone.
pub fn number(a: Answered) -> u64
    ensures { result ≡ (reply a).number }
{
    match a {
        Ok(Answer::Taken { .. }) => 0,
        Ok(Answer::Begun) => 1,
        Ok(Answer::Read { .. }) => 2,
        Ok(Answer::Written) => 3,
        Ok(Answer::Committed) => 4,
        Ok(Answer::Aborted) => 5,
        Ok(Answer::Recovered { .. }) => 6,
        Err(Refusal::Unfit) => 9,
        Err(Refusal::NoWord) => 10,
        Err(Refusal::NoRecord) => 11,
        Err(Refusal::NotIdle) => 12,
        Err(Refusal::NotFresh) => 13,
        Err(Refusal::NotReady) => 14,
        Err(Refusal::NoLine) => 15,
        Err(Refusal::Idle) => 16,
    }
}

pub fn value(a: Answered) -> u64
    ensures { result ≡ (reply a).value }
{
    match a {
        Ok(Answer::Taken { lines } | Answer::Recovered { lines }) => lines,
        Ok(Answer::Read { value }) => value as u64,
        _ => 0,
    }
}
