// The replay of the library `host`, exported under the same name for a host in another language: a crate is a library or a static library, and not both.

#![tactic(auto)]

ghost use Rattle.std.specs.Prelude.{◌≡◌};
ghost use Rattle.text.specs.Buffer.{buffer, puts};
ghost use Rattle.day.specs.Replay.{printed};

// Puts what the program replay prints of a trace at the start of out, as much of it as there is room for, and gives the place after it.
// No text is longer than 655,438 bytes. The rest of out stays as it is.
#[unsafe(no_mangle)]
pub extern "C" fn register_replay(trace: &[u8], out: &mut [u8]) -> usize
    ensures { buffer out.new result ≡ puts (buffer out.old 0) (printed trace.now) }
{
    host::register_replay(trace, out)
}
