// What the store holds beside its rows: eight numbers, the four marks, the count, recovery's line, its word and its value.
ghost use Rattle.std.specs.Prelude.{◌≡◌, Some, None};
ghost use Rattle.bits.specs.Marks.{pick};
ghost use Rattle.numbers.specs.Numbers.{low as low_of};
ghost use Rattle.numbers.specs.Ways.{held_spelt, spelled_held, spells_held};

use machine::Held;
use spelling::{read_recovery, spell_recovery, spelt_by};

// The low 32 bits: a cast is allowed only where it loses nothing.
fn low(n: u64) -> u32
    ensures { result ≡ low_of n }
{
    (n % 4294967296) as u32
}

// Any eight numbers can be read.
fn held_of(numbers: [u64; 8]) -> Held
    ensures { result ≡ held_spelt numbers }
{
    let [first, second, third, fourth, glb, line, word, value] = numbers;
    Held {
        marks: [first, second, third, fourth],
        glb: low(glb),
        recovery: read_recovery(spelt_by(low(line), low(word), low(value))),
    }
}

pub(crate) fn held_numbers(held: Held) -> [u64; 8]
    ensures { result ≡ spelled_held held }
{
    let [first, second, third, fourth] = held.marks;
    let s = spell_recovery(held.recovery);
    [
        first,
        second,
        third,
        fourth,
        held.glb as u64,
        s.number as u64,
        s.word as u64,
        s.value as u64,
    ]
}

// What the numbers spell, if they are those that it is spelled by: a number that is too large, a line that there is none of, or a word where
// there is none, is told by one comparison. The four marks spell themselves.
#[tactic(auto, using(crate::proofs::Beside::not_eight))]
pub(crate) fn read_held(held: &[u64]) -> Option<Held>
    ensures { result ≡ pick (spells_held held.now) (Some (held_spelt held.now)) None }
{
    let numbers = *held.as_array::<8>()?;
    let read = held_of(numbers);
    let s = spell_recovery(read.recovery);
    let told = [
        read.glb as u64,
        s.number as u64,
        s.word as u64,
        s.value as u64,
    ];
    if told != [numbers[4], numbers[5], numbers[6], numbers[7]] {
        return None;
    }
    Some(read)
}
