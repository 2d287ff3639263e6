// What a crash does to the volatile words.
ghost use Rattle.std.specs.Prelude.{◌≡◌, length};

// Every word of pers over that of vol. By place: `copy_from_slice` is a call of `memmove`, which whoever links the static libraries would have to bring.
pub(crate) fn copy(vol: &mut [u32], pers: &[u32])
    requires { length vol.old ≡ length pers.now }
    ensures { vol.new ≡ pers.now }
{
    for i in 0..pers.len() {
        vol[i] = pers[i];
    }
}
