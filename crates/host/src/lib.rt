// Replays a trace for a host in another language, such as C or Rust: numbers and slices of numbers are all that it hands over. The crate `host_c` exports it.

#![tactic(auto)]

ghost use Rattle.std.specs.Prelude.{◌≡◌};
ghost use Rattle.text.specs.Buffer.{buffer, puts};
ghost use Rattle.day.specs.Replay.{printed};

use machine::Held;
use reader::trace::header;
use trace::replay_beside;

// Puts what the program replay prints of a trace at the start of out, as much of it as there is room for, and gives the place after it.
// No text is longer than 655,438 bytes. The rest of out stays as it is.
// The lines of the program replay over again, with arrays of its own: document 01 has the arrays in the program.
pub fn register_replay(trace: &[u8], out: &mut [u8]) -> usize
    ensures { buffer out.new result ≡ puts (buffer out.old 0) (printed trace.now) }
{
    let mut vol = [0u32; 256];
    let mut pers = [0u32; 256];
    let mut old = [0u32; 256];
    let n = header(trace).unwrap_or(0);
    let done = replay_beside(
        trace,
        &mut vol[..n],
        &mut pers[..n],
        &mut old[..n],
        Held::FRESH,
        64,
        out,
    );
    done.ended.length
}
