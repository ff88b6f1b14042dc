// Little-endian words written. A word that does not fit leaves the output as it was.
#![tactic(auto)]

ghost use Rattle.std.specs.Prelude.{◌≡◌};
ghost use Rattle.wire.specs.Word.{bytes_of};
ghost use Rattle.wire.specs.Bytes.{overwrite};

// Writes the 8 bytes of `v` to `out` from `at` on, where they fit.
pub fn put_word8(out: &mut [u8], at: usize, v: u64)
    ensures { out.new ≡ overwrite out.old at (bytes_of 8 v) }
{
    let bytes = v.to_le_bytes();
    wire_copy::copy_at(out, at, &bytes);
}
