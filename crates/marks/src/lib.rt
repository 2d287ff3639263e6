// Which words are in the log: one mark bit for each word, in four 64-bit numbers, which go by reference.
// Word w has bit `w % 64` of number `w / 64`. A word of 256 or more is never marked, and marking it changes nothing.
// They are four numbers, as document 01 has them, in an array, which has no methods of ours: what is done to them are functions. Loops and no chains of iterators:
// the closures of a chain would have clauses of their own, with the loop's body in them once more.

#![tactic(auto)]

ghost use Rattle.std.specs.Prelude.{◌≡◌, ◌≤◌, ◌<◌};
ghost use Rattle.bits.specs.Marks.{put, is_marked, mark_of, unmark_of, clear_of, count_of, lowest_of, stands_from};

pub type Marks = [u64; 4];

#[tactic(auto, using(crate::proofs::Row::marking))]
pub fn mark(m: &mut Marks, w: u64)
    ensures { m.new ≡ mark_of m.old w }
{
    if w < 256 {
        let i = (w / 64) as usize;
        m[i] |= 1u64 << (w % 64);
    }
}

// The number with no mark at that place. It goes by value, which says that it has 64 bits: a row that is lent to be written says so no longer at the return.
#[tactic(auto, using(crate::proofs::Row::marking))]
fn without(number: u64, place: u64) -> u64
    requires { place < 64 }
    ensures { result ≡ put number place 0 }
{
    number & !(1u64 << place)
}

#[tactic(auto, using(crate::proofs::Row::marking))]
pub fn unmark(m: &mut Marks, w: u64)
    ensures { m.new ≡ unmark_of m.old w }
{
    if w < 256 {
        let i = (w / 64) as usize;
        m[i] = without(m[i], w % 64);
    }
}

#[tactic(auto, using(crate::proofs::Row::clear_four))]
pub fn clear(m: &mut Marks)
    ensures { m.new ≡ clear_of m.old }
{
    *m = [0; 4];
}

#[tactic(auto, using(crate::proofs::Row::reading))]
pub fn is_marked(m: &Marks, w: u64) -> bool
    ensures { result ≡ is_marked m.now w }
{
    if 256 <= w {
        return false;
    }
    let i = (w / 64) as usize;
    (m[i] >> (w % 64)) % 2 == 1
}

// How many words are marked, 256 at the most.
#[tactic(auto, using(crate::proofs::Row::counting))]
pub fn count(m: &Marks) -> u64
    ensures { (result ≡ count_of m.now) × (result ≤ 256) }
{
    let mut marked: u64 = 0;
    for number in m {
        marked += u64::from(number.count_ones());
    }
    marked
}

// The lowest marked word; 256 where no word is marked. No `Option`: the definition gives that number, and who asks stands at C2, where a word is marked.
#[tactic(auto, using(crate::proofs::Row::seeking))]
pub fn lowest(m: &Marks) -> u64
    ensures { result ≡ lowest_of m.now }
{
    for (i, number) in m.iter().enumerate() {
        let zeros = u64::from(number.trailing_zeros());
        if zeros < 64 {
            return 64 * i as u64 + zeros;
        }
    }
    256
}

// Whether some word at n or above is marked. No number is looked at where n is past the row, and only the last where the words from n on are all in it.
#[tactic(auto, using(crate::proofs::Row::standing))]
pub fn stands_from(m: &Marks, n: u64) -> bool
    ensures { result ≡ stands_from m.now n }
{
    if 256 <= n {
        return false;
    }
    if 192 <= n {
        return m[3] >> (n - 192) != 0;
    }
    let mut from = n;
    for number in m {
        if from < 64 && *number >> from != 0 {
            return true;
        }
        from = from.saturating_sub(64);
    }
    false
}
