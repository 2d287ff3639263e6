// The flush of a word, as W7, C4 and a system flush do it.
ghost use Rattle.std.specs.Prelude.{◌≡◌};
ghost use Rattle.parts.specs.Flush.{flush_in};

// The persistent words after a flush of the word, where both rows have it; as they were elsewhere.
pub fn flush_word(vol: &[u32], pers: &mut [u32], word: usize)
    ensures { pers.new ≡ flush_in vol.now pers.old word }
{
    if word < vol.len() {
        if word < pers.len() {
            pers[word] = vol[word];
        }
    }
}
