// A trace with a place in it. What takes it apart is thin: the work is `seen_at`'s, on the bytes and the place.
ghost use Rattle.std.specs.Prelude.{◌≡◌, drop};
ghost use Rattle.reader.specs.Trace.{found};
ghost use Rattle.reader.specs.Said.{item, place_after, moved_on};

use crate::trace::seen_at;
use crate::{Item, Seen};

// The reader of a trace: the bytes that it reads and its place.
#[derive(Clone, Copy)]
pub struct Reader<'a> {
    pub trace: &'a [u8],
    pub at: usize,
}

// What stood at a reader's place, and the reader moved on past it.
#[derive(Clone, Copy)]
pub struct Read<'a> {
    pub item: Item,
    pub reader: Reader<'a>,
}

// What stands at the reader's place, and the reader moved on.
pub fn next<'a>(reader: Reader<'a>) -> Read<'a>
    ensures { (item result.item ≡ found (drop reader.entry.at reader.entry.trace.now))
        × (result.reader ≡ moved_on reader.entry) }
{
    let seen = seen_at(reader.trace, reader.at);
    Read {
        item: seen.item,
        reader: Reader {
            trace: reader.trace,
            at: seen.after,
        },
    }
}

// The same with plain parameters, for a caller that has the bytes and the place apart.
pub fn read_at(trace: &[u8], at: usize) -> Seen
    ensures { (item result.item ≡ found (drop at trace.now))
        × (result.after ≡ place_after at (found (drop at trace.now))) }
{
    let read = next(Reader { trace, at });
    Seen {
        item: read.item,
        after: read.reader.at,
    }
}
