// Text in a lent buffer.

#![tactic(auto)]

ghost use Rattle.std.specs.Prelude.{◌+◌, ◌≤◌, ◌<◌, ◌≡◌, true, [], ◌∷◌, ◌++◌, length};
ghost use Rattle.text.specs.Text.{decimal, answer_line, stop_line, totals_line};
ghost use Rattle.text.specs.Buffer.{put, puts};
ghost use Rattle.text.specs.Page.{LendsSame, on_page};

// A lent buffer, and the place up to which text stands in it. Each method puts its text there and moves the place behind it; a full buffer stays as it is.
// Each function that puts text promises that the same buffer stands in it after (`LendsSame`): an invariant speaks of one value, and this is of the value before and
// the value after.
#[derive(Drop)]
pub struct Page<'a> {
    pub bytes: &'a mut [u8],
    pub at: usize,
}

#[tactic(auto, using(crate::proofs::Laws::putting), unfolding(crate::specs::Buffer::puts, crate::specs::Text::line_of, crate::specs::Text::answer_line, crate::specs::Text::stop_line, crate::specs::Text::totals_line))]
impl<'a> Page<'a> {
    #[tactic(auto, unfolding(crate::specs::Buffer::put))]
    pub fn put_byte(&mut self, b: u8)
        ensures same { LendsSame self.old self.new }
        ensures text { on_page self.new ≡ put (on_page self.old) b }
    {
        if self.at < self.bytes.len() {
            self.bytes[self.at] = b;
            self.at += 1;
        }
    }

    pub fn put_bytes(&mut self, text: &[u8])
        ensures same { LendsSame self.old self.new }
        ensures text { on_page self.new ≡ puts (on_page self.old) text.now }
    {
        for byte in text {
            self.put_byte(*byte);
        }
    }

    // A number below 10 is one digit; any other is the digits of n / 10, and then one more. Not by `write!`: what there is no room
    // for is left out here, and is no error.
    pub fn put_decimal(&mut self, n: u64)
        ensures same { LendsSame self.old self.new }
        ensures text { on_page self.new ≡ puts (on_page self.old) (decimal n) }
    {
        if n < 10 {
            self.put_byte(b'0' + n as u8);
            return;
        }
        self.put_decimal(n / 10);
        self.put_byte(b'0' + (n % 10) as u8);
    }

    // A number, and the byte after it, each byte tested for room.
    fn put_field(&mut self, n: u64, end: u8)
        ensures same { LendsSame self.old self.new }
        ensures text { on_page self.new ≡ puts (on_page self.old) (decimal n ++ (end ∷ [])) }
    {
        self.put_decimal(n);
        self.put_byte(end);
    }

    // A number's digits, the last one first, where there is room for ten: as `put_decimal` puts them, but no byte is tested for room. By place, from behind, since a
    // division gives the last digit first.
    fn put_digits(&mut self, n: u32)
        requires { self.old.at + 10 ≤ length self.old.bytes.now }
        ensures same { LendsSame self.old self.new }
        ensures text { on_page self.new ≡ puts (on_page self.old) (decimal n) }
    {
        let at = self.at;
        let width = digit_count(n);
        let mut rest = n;
        for i in (0..width).rev() {
            self.bytes[at + i] = b'0' + (rest % 10) as u8;
            rest /= 10;
        }
        self.at = at + width;
    }

    // A number, and the byte after it, where there is room for eleven bytes. Most numbers of a line are one digit, which is put without a count of
    // digits; otherwise as `put_field` puts it, but no byte is tested for room.
    fn put_short(&mut self, n: u32, end: u8)
        requires { self.old.at + 11 ≤ length self.old.bytes.now }
        ensures same { LendsSame self.old self.new }
        ensures text { on_page self.new ≡ puts (on_page self.old) (decimal n ++ (end ∷ [])) }
    {
        if n < 10 {
            let at = self.at;
            self.bytes[at] = b'0' + n as u8;
            self.bytes[at + 1] = end;
            self.at = at + 2;
            return;
        }
        self.put_digits(n);
        let at = self.at;
        self.bytes[at] = end;
        self.at = at + 1;
    }

    // The line of three short numbers, where there is room for any.
    fn put_short_answer(&mut self, number: u32, answer: u32, value: u32)
        requires { self.old.at + 33 ≤ length self.old.bytes.now }
        ensures same { LendsSame self.old self.new }
        ensures text { on_page self.new ≡ puts (on_page self.old) (answer_line number answer value) }
    {
        self.put_short(number, b' ');
        self.put_short(answer, b' ');
        self.put_short(value, b'\n');
    }

    // Room for three numbers of at most ten digits, and the byte after each: tested once, here; of that each method above asks what it fills.
    fn has_room_for_line(&self) -> bool
        ensures { result ≡ true → self.now.at + 33 ≤ length self.now.bytes.now }
    {
        33 <= self.bytes.len().saturating_sub(self.at)
    }

    // The line of an answer. Where there is room for any line of short numbers, its bytes are not tested for room one by one.
    pub fn put_answer(&mut self, number: u64, answer: u64, value: u64)
        ensures same { LendsSame self.old self.new }
        ensures text { on_page self.new ≡ puts (on_page self.old) (answer_line number answer value) }
    {
        if self.has_room_for_line() {
            if let (Ok(number), Ok(answer), Ok(value)) = (
                u32::try_from(number),
                u32::try_from(answer),
                u32::try_from(value),
            ) {
                self.put_short_answer(number, answer, value);
                return;
            }
        }
        self.put_field(number, b' ');
        self.put_field(answer, b' ');
        self.put_field(value, b'\n');
    }

    pub fn put_stop(&mut self, refusal: u64, number: u64)
        ensures same { LendsSame self.old self.new }
        ensures text { on_page self.new ≡ puts (on_page self.old) (stop_line refusal number) }
    {
        self.put_byte(b'X');
        self.put_byte(b' ');
        self.put_field(refusal, b' ');
        self.put_field(number, b'\n');
    }

    pub fn put_totals(&mut self, records: u64, crashes: u64, lines: u64, cut: u64, committed: u64)
        ensures same { LendsSame self.old self.new }
        ensures text { on_page self.new ≡ puts (on_page self.old) (totals_line records crashes lines cut committed) }
    {
        self.put_byte(b'T');
        self.put_byte(b' ');
        self.put_field(records, b' ');
        self.put_field(crashes, b' ');
        self.put_field(lines, b' ');
        self.put_field(cut, b' ');
        self.put_field(committed, b'\n');
    }
}

// How many digits a number has. `checked_ilog10` says it too, but a line took half as long again with it.
fn digit_count(n: u32) -> usize
    ensures { result ≡ length (decimal n) }
{
    match n {
        0..=9 => 1,
        10..=99 => 2,
        100..=999 => 3,
        1000..=9999 => 4,
        10000..=99999 => 5,
        100000..=999999 => 6,
        1000000..=9999999 => 7,
        10000000..=99999999 => 8,
        100000000..=999999999 => 9,
        _ => 10,
    }
}
