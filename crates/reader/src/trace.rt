// The header, and the record at a place.
ghost use Rattle.std.specs.Prelude.{◌≡◌, ◌<◌, length, drop};
ghost use Rattle.reader.specs.Trace.{found};
ghost use Rattle.reader.specs.Said.{header_said, header_of, item, read, place_after};

use crate::decode::{record, two};
use crate::{Item, Record, Seen, TraceRefusal};

// N, or a refusal: the document's checks in their order.
#[tactic(auto, unfolding(crate::specs::Said::header_of))]
pub fn header(trace: &[u8]) -> Result<usize, TraceRefusal>
    ensures { header_said result ≡ header_of trace.now }
{
    let none = trace.is_empty();
    let short = trace.len() < 3;
    if 65536 < trace.len() {
        return Err(TraceRefusal::TooLong);
    }
    if none {
        return Err(TraceRefusal::CutShort);
    }
    if trace[0] != 1 {
        return Err(TraceRefusal::WrongVersion);
    }
    if short {
        return Err(TraceRefusal::CutShort);
    }
    let words = two(trace, 1) as usize;
    if words == 0 || 256 < words {
        return Err(TraceRefusal::WrongSize);
    }
    Ok(words)
}

// The record at a place inside the trace.
#[tactic(auto, using(crate::proofs::Places::one_left, crate::proofs::Places::no_body, crate::proofs::Places::beyond, crate::proofs::Places::within))]
fn record_at(trace: &[u8], at: usize) -> Result<Record, TraceRefusal>
    requires { at < length trace.now }
    ensures { read result ≡ found (drop at trace.now) }
{
    let left = trace.len() - at;
    if left < 2 {
        return Err(TraceRefusal::CutShort);
    }
    let long = two(trace, at) as usize;
    if long == 0 {
        return Err(TraceRefusal::WrongLength);
    }
    if left - 2 < long {
        return Err(TraceRefusal::CutShort);
    }
    // the body, without the two bytes of its length
    let start = at + 2;
    let end = start + long;
    record(&trace[start..end])
}

// The record at a place; past the trace's end there is none.
#[tactic(auto, using(crate::proofs::Places::none_left))]
fn item_at(trace: &[u8], at: usize) -> Item
    ensures { item result ≡ found (drop at trace.now) }
{
    if trace.len() <= at {
        return None;
    }
    Some(record_at(trace, at))
}

// The same with the place after it.
pub(crate) fn seen_at(trace: &[u8], at: usize) -> Seen
    ensures { (item result.item ≡ found (drop at trace.now)) × (result.after ≡ place_after at (found (drop at trace.now))) }
{
    let item = item_at(trace, at);
    let after = match item {
        Some(Ok(record)) => at + record.bytes,
        Some(Err(_)) => at,
        None => at,
    };
    Seen { item, after }
}
