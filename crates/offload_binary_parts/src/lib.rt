// What the reader and the writer of an offload binary share: parts of lent bytes, and the tests that both make.
#![tactic(auto)]

ghost use Rattle.std.specs.Prelude.{◌≡◌, ◌+◌, ltb};
ghost use Rattle.std.specs.List.{list_any};
ghost use Rattle.wire.specs.Bytes.{same};
ghost use Rattle.offload_binary.specs.Binary.{bytes_at, bad_kinds, equal_keys};

use offload_binary::{Part, StringPair};

// The bytes that a part names, as far as they lie inside.
// What lies outside is cut off, as the definition `bytes_at` has it.
#[tactic(auto, using(offload_binary::proofs::BinaryLaws::part_cut))]
pub fn bytes_at(s: &[u8], part: Part) -> &[u8]
    ensures { result.now ≡ bytes_at s.now part }
{
    let rest = &s[part.start.min(s.len())..];
    &rest[..part.len.min(rest.len())]
}

// The sum of `at` and `n` is above the size; it is not made, so it does not wrap.
pub fn passes(size: usize, at: usize, n: usize) -> bool
    ensures { result ≡ ltb size (at + n) }
{
    size < at || size - at < n
}

// 15: image kind above 5 or offload kind above 3.
#[tactic(auto, unfolding(offload_binary::specs::Binary::bad_kinds))]
pub fn bad_kinds(image: u64, offload: u64) -> bool
    ensures { result ≡ bad_kinds image offload }
{
    5 < image || 3 < offload
}

// Some pair has this key.
fn has_key(s: &[u8], pairs: &[StringPair], key: &[u8]) -> bool
    ensures { result ≡ list_any (λ pair. same (bytes_at s.now pair.key) key.now) pairs.now }
{
    pairs
        .iter()
        .any(|pair| wire_read::same_bytes(bytes_at(s, pair.key), key))
}

// Two pairs have equal keys.
pub fn has_equal_keys(s: &[u8], pairs: &[StringPair]) -> bool
    ensures { result ≡ equal_keys s.now pairs.now }
{
    for (i, pair) in pairs.iter().enumerate() {
        if has_key(s, &pairs[..i], bytes_at(s, pair.key)) {
            return true;
        }
    }
    false
}
