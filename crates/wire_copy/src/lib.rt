// Bytes copied. A copy that does not fit leaves the output as it was.
#![tactic(auto)]

ghost use Rattle.std.specs.Prelude.{◌≡◌};
ghost use Rattle.wire.specs.Bytes.{overwrite};

// Copies `src` to `out` from `at` on, where it fits.
pub fn copy_at(out: &mut [u8], at: usize, src: &[u8])
    ensures { out.new ≡ overwrite out.old at src.now }
{
    if at <= out.len() && src.len() <= out.len() - at {
        out[at..at + src.len()].copy_from_slice(src);
    }
}
