// The memory of a store: the word rows that are lent, the marks and the count. What is asked of all of it, and the flush of a word, are its
// methods; each is the function of that name in `fit` or `words`, for whom the parts of a memory are lent apart, or only read.
ghost use Rattle.std.specs.Prelude.{◌≡◌};
ghost use Rattle.dtml.specs.Checks.{unfit_memory, unfit_one};
ghost use Rattle.parts.specs.Lent.{memory_of, SameRows, unfit_with};
ghost use Rattle.parts.specs.Flush.{flush_in};

use crate::fit::{unfit_beside, unfit_idle, unfit_one};
use crate::words::flush_word;
use dtml::{Recovery, Tx};
use marks::Marks;

// Each function that changes a memory promises that the same rows stand in it after (`SameRows`): an invariant speaks of one value, and this is of the value before
// and the value after.
// Recovery is no field: it goes in by value beside the memory, and what a call gives back says if it is changed, so that a loop stores it only then.
#[derive(Drop)]
pub struct Memory<'a> {
    pub vol: &'a mut [u32],
    pub pers: &'a mut [u32],
    pub old_words: &'a mut [u32],
    pub marks: Marks,
    pub glb: u32,
}

impl Memory<'_> {
    // Unfit where recovery is idle, without a look at the records.
    pub fn unfit_idle(&self) -> bool
        ensures { result ≡ unfit_memory (memory_of self.now) Recovery.Idle }
    {
        unfit_idle(
            self.vol.len(),
            self.pers.len(),
            self.old_words.len(),
            &self.marks,
            self.glb,
        )
    }

    // The same wherever recovery stands.
    pub fn unfit_beside(&self, recovery: Recovery) -> bool
        ensures { result ≡ unfit_memory (memory_of self.now) recovery }
    {
        unfit_beside(
            self.vol.len(),
            self.pers.len(),
            self.old_words.len(),
            &self.marks,
            self.glb,
            recovery,
        )
    }

    // The same with one record.
    pub fn unfit_one(&self, recovery: Recovery, tx: Tx) -> bool
        ensures { result ≡ unfit_with (memory_of self.now) recovery tx }
    {
        unfit_one(
            self.vol.len(),
            self.pers.len(),
            self.old_words.len(),
            &self.marks,
            self.glb,
            recovery,
            tx,
        )
    }

    // The flush of a word; the persistent words are as they were elsewhere.
    pub fn flush_word(&mut self, word: usize)
        ensures same { SameRows self.old self.new }
        ensures flushed { memory_of self.new ≡ record (memory_of self.old) { pers = flush_in self.old.vol.now self.old.pers.now word } }
    {
        let vol = &mut *self.vol;
        let pers = &mut *self.pers;
        flush_word(&*vol, pers, word);
    }
}
