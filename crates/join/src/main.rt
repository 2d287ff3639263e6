// A host in Rattle. It joins "Lower Forty" with "Lower Forty B": the link, the history and the area are written in one transaction. The power fails after its
// second write, recovery takes the join back, and a second transaction writes it whole. Each operation's answer is written, and the three persistent words.

#![tactic(auto)]

mod tell;

ghost use Rattle.std.specs.Prelude.{◌≡◌, ltb};
ghost use Rattle.io.specs.Counts.{IsPrefixLen};
ghost use Rattle.bits.specs.Marks.{pick};
ghost use Rattle.text.specs.Buffer.{buffer};
ghost use Rattle.join.specs.Join.{ask_at, asked_at, text_at};

use crate::tell::tell;
use dtml::{Ask, Call, Sys, Tx};
use machine::{Held, call, make_fresh};
use std::io;
use text::Page;

// Transaction 0 is cut by the power failure, which is call 17; then comes transaction 1.
fn owner(i: usize) -> u64
    ensures { result ≡ pick (ltb i 17) 0 1 }
{
    if i < 17 { 0 } else { 1 }
}

// What is asked of a record: an operation is asked for, and then its lines are done one by one. By place, as the definition is, and so are the calls below.
#[tactic(auto, unfolding(crate::specs::Join::ask_at))]
fn ask_at(i: usize) -> Ask
    ensures { result ≡ ask_at i }
{
    match i {
        0 => Ask::Begin,
        3 => Ask::Write { word: 0, value: 41 },
        11 => Ask::Write { word: 1, value: 42 },
        19 => Ask::Begin,
        22 => Ask::Write { word: 0, value: 41 },
        30 => Ask::Write { word: 1, value: 42 },
        36 => Ask::Write { word: 2, value: 43 },
        42 => Ask::Commit,
        _ => Ask::Step,
    }
}

// The calls, in order: all but the power failure and recovery are on their owner's record.
#[tactic(auto, unfolding(crate::specs::Join::asked_at))]
fn asked_at(i: usize) -> Call
    ensures { result ≡ asked_at i }
{
    match i {
        17 => Call::Of { sys: Sys::Crash },
        18 => Call::Of {
            sys: Sys::RecoverUpTo { allowance: 1000 },
        },
        _ => Call::On {
            id: owner(i),
            ask: ask_at(i),
        },
    }
}

// Owns the store's four rows and lends them to each call; what is held beside them goes in and comes back. Gives the length of the text, whose
// buffer is an array of `main`: nothing is allocated.
fn run(out: &mut [u8]) -> usize
    ensures { (buffer out.new result ≡ text_at out.old 46) × IsPrefixLen result out.new }
{
    let mut vol = [0u32; 4];
    let mut pers = [0u32; 4];
    let mut old = [0u32; 4];
    let mut txs = [Tx::FRESH; 64];
    let fresh = make_fresh(&mut vol, &mut pers, &mut old, &mut txs, Held::FRESH);
    let mut held = fresh.held;
    let mut page = Page { bytes: out, at: 0 };
    for i in 0..46 {
        let asked = asked_at(i);
        let done = call(&mut vol, &mut pers, &mut old, &mut txs, held, asked);
        tell(&mut page, asked, done.answer, &pers);
        held = done.held;
    }
    page.at
}

fn main(rt: HostRuntime) -> io::Result<()> {
    let mut text = [0u8; 512];
    let length = run(&mut text);
    rt.write_all(&text[..length])
}
