// What is written of a call, put on a page.
ghost use Rattle.std.specs.Prelude.{◌≡◌, ◌++◌, get_or};
ghost use Rattle.dtml.specs.Table.{reply};
ghost use Rattle.text.specs.Buffer.{puts};
ghost use Rattle.text.specs.Page.{LendsSame, on_page};
ghost use Rattle.text.specs.Text.{decimal};
ghost use Rattle.join.specs.Join.{line, answered, words, power_fails, told};

use dtml::{Answer, Answered, Call, Sys};
use parts::answer::{number, value};
use text::Page;

// A name, and the number after it.
#[tactic(auto, using(text::proofs::Laws::putting))]
fn put_named(page: &mut Page, name: &[u8], n: u64)
    ensures same { LendsSame page.old page.new }
    ensures text { on_page page.new ≡ puts (on_page page.old) (name.now ++ decimal n) }
{
    page.put_bytes(name);
    page.put_decimal(n);
}

// A name, and the answer as number and value.
#[tactic(auto, using(text::proofs::Laws::putting), unfolding(text::specs::Buffer::puts, crate::specs::Join::line))]
fn put_line(page: &mut Page, name: &[u8], answer: Answered)
    ensures same { LendsSame page.old page.new }
    ensures text { on_page page.new ≡ puts (on_page page.old) (line name.now (reply answer).number (reply answer).value) }
{
    put_named(page, name, number(answer));
    put_named(page, b" ", value(answer));
    page.put_byte(b'\n');
}

// The line of an operation that is done.
#[tactic(auto, unfolding(text::specs::Buffer::puts, crate::specs::Join::answered))]
fn put_answered(page: &mut Page, answer: Answered)
    ensures same { LendsSame page.old page.new }
    ensures text { on_page page.new ≡ puts (on_page page.old) (answered (reply answer).number (reply answer).value) }
{
    match answer {
        Ok(Answer::Begun) => put_line(page, b"begin: ", answer),
        Ok(Answer::Written) => put_line(page, b"write: ", answer),
        Ok(Answer::Committed) => put_line(page, b"commit: ", answer),
        Ok(Answer::Recovered { .. }) => put_line(page, b"recovery: ", answer),
        _ => {}
    }
}

// A word of a row; past its end, 0: one expression of the library.
fn word(row: &[u32], i: usize) -> u64
    ensures { result ≡ get_or row.now i 0 }
{
    u64::from(row.get(i).copied().unwrap_or(0))
}

#[tactic(auto, using(text::proofs::Laws::putting), unfolding(text::specs::Buffer::puts, crate::specs::Join::words))]
fn put_words(page: &mut Page, pers: &[u32])
    ensures same { LendsSame page.old page.new }
    ensures text { on_page page.new ≡ puts (on_page page.old) (words pers.now) }
{
    put_named(page, b"persistent: link ", word(pers, 0));
    put_named(page, b", history ", word(pers, 1));
    put_named(page, b", area ", word(pers, 2));
    page.put_byte(b'\n');
}

fn power_fails(asked: Call) -> bool
    ensures { result ≡ power_fails asked }
{
    matches!(asked, Call::Of { sys: Sys::Crash })
}

// A call's line, and the persistent words where no transaction goes on: at a crash, and after a commit and recovery.
#[tactic(auto, using(text::proofs::Laws::putting), unfolding(crate::specs::Join::tells))]
pub(crate) fn tell(page: &mut Page, asked: Call, answer: Answered, pers: &[u32])
    ensures same { LendsSame page.old page.new }
    ensures text { on_page page.new ≡ puts (on_page page.old) (told asked (reply answer) pers.now) }
{
    if power_fails(asked) {
        put_words(page, pers);
        put_line(page, b"the power fails: ", answer);
        return;
    }
    put_answered(page, answer);
    match answer {
        Ok(Answer::Taken { .. } | Answer::Begun | Answer::Read { .. } | Answer::Written) => {}
        _ => put_words(page, pers),
    }
}
