// A record's body by the table of kinds, and the numbers in it.
ghost use Rattle.std.specs.Prelude.{◌+◌, ◌<◌, ◌≡◌, ◌≢◌, length, MatchResult};
ghost use Rattle.dtml.specs.declared.Ask.TheVariants.{Read as read_of, Write as write_of};
ghost use Rattle.dtml.specs.declared.Sys.TheVariants.{Flush as flush_of};
ghost use Rattle.dtml.specs.declared.Call.TheVariants.{On as on_of, Of as sys_of};
ghost use Rattle.reader.specs.declared.TraceRefusal.TheVariants.{WrongLength as wrong_length};
ghost use Rattle.reader.specs.Trace.{byte, two as two_of, four as four_of, kinds, of_length as of_length_of, of_kind};
ghost use Rattle.reader.specs.Said.{read as read_as};

use crate::{Record, TraceRefusal};
use dtml::{Ask, Call, Sys};

// Big-endian numbers. `from_be_bytes` is of each number type and of no trait, so one function for both would need a trait of its own and be longer.
pub(crate) fn two(s: &[u8], i: usize) -> u16
    requires { i + 1 < length s.now }
    ensures { result ≡ two_of s.now i }
{
    u16::from_be_bytes([s[i], s[i + 1]])
}

fn four(s: &[u8], i: usize) -> u32
    requires { i + 3 < length s.now }
    ensures { result ≡ four_of s.now i }
{
    u32::from_be_bytes([s[i], s[i + 1], s[i + 2], s[i + 3]])
}

// A whole body; its first byte is the kind, and a match on it leads to each kind's own decoder, the unknown ones as the rest: a type for the kinds would be matched
// on once more.
#[tactic(auto, unfolding(crate::specs::Trace::of_kind))]
pub(crate) fn record(body: &[u8]) -> Result<Record, TraceRefusal>
    requires { 0 < length body.now }
    ensures { read_as result ≡ of_kind kinds body.now }
{
    match body[0] {
        1 => bare_ask(body, Ask::Begin),
        2 => read(body),
        3 => write(body),
        4 => bare_ask(body, Ask::Commit),
        5 => bare_ask(body, Ask::Step),
        6 => flush(body),
        7 => bare(body, Sys::Crash),
        8 => bare(body, Sys::Recover),
        _ => Err(TraceRefusal::UnknownKind),
    }
}

// Whether the body is as long as one of its kind.
fn of_length(body: &[u8], long: usize) -> Result<(), TraceRefusal>
    ensures { MatchResult result (λ fits. length body.now ≡ long) (λ refusal. (refusal ≡ wrong_length) × (length body.now ≢ long)) }
{
    if body.len() != long {
        return Err(TraceRefusal::WrongLength);
    }
    Ok(())
}

// What is asked of the record that byte 1 names.
fn on(body: &[u8], ask: Ask) -> Record
    requires { 1 < length body.now }
    ensures { result ≡ record { call = on_of (byte body.now 1) ask; bytes = 2 + length body.now } }
{
    let id = body[1] as u64;
    Record {
        call: Call::On { id, ask },
        bytes: body.len() + 2,
    }
}

// Begin, commit and step.
fn bare_ask(body: &[u8], ask: Ask) -> Result<Record, TraceRefusal>
    ensures { read_as result ≡ of_length_of 2 body.now (on_of (byte body.now 1) ask) }
{
    of_length(body, 2)?;
    Ok(on(body, ask))
}

fn read(body: &[u8]) -> Result<Record, TraceRefusal>
    ensures { read_as result ≡ of_length_of 3 body.now
        (on_of (byte body.now 1) (read_of (byte body.now 2))) }
{
    of_length(body, 3)?;
    let word = body[2] as u32;
    Ok(on(body, Ask::Read { word }))
}

fn write(body: &[u8]) -> Result<Record, TraceRefusal>
    ensures { read_as result ≡ of_length_of 7 body.now
        (on_of (byte body.now 1) (write_of (byte body.now 2) (four_of body.now 3))) }
{
    of_length(body, 7)?;
    let word = body[2] as u32;
    let value = four(body, 3);
    Ok(on(body, Ask::Write { word, value }))
}

// What is asked of the store and of no record.
fn of_store(body: &[u8], sys: Sys) -> Record
    ensures { result ≡ record { call = sys_of sys; bytes = 2 + length body.now } }
{
    Record {
        call: Call::Of { sys },
        bytes: body.len() + 2,
    }
}

fn flush(body: &[u8]) -> Result<Record, TraceRefusal>
    ensures { read_as result ≡ of_length_of 2 body.now (sys_of (flush_of (byte body.now 1))) }
{
    of_length(body, 2)?;
    let word = body[1] as u32;
    Ok(of_store(body, Sys::Flush { word }))
}

// A crash, or a line of recovery.
fn bare(body: &[u8], sys: Sys) -> Result<Record, TraceRefusal>
    ensures { read_as result ≡ of_length_of 1 body.now (sys_of sys) }
{
    of_length(body, 1)?;
    Ok(of_store(body, sys))
}
