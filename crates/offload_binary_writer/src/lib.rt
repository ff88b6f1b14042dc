// Writes one of LLVM's offload binaries over a lent output.
// Numbers are cast to words by `as`: both have 64 bits here, and std has no `From` between them.
#![tactic(auto)]

ghost use Rattle.std.specs.Prelude.{◌≡◌, ◌++◌, [], ◌∷◌, false, ◌+◌, ◌*◌, ◌<◌, ◌≤◌, All, length, replicate, sum_by};
ghost use Rattle.std.specs.List.{list_any};
ghost use Rattle.wire.specs.Word.{bytes_of};
ghost use Rattle.wire.specs.Bytes.{overwrite};
ghost use Rattle.offload_binary.specs.Binary.{ended};
ghost use Rattle.offload_binary.specs.Contents.{string_bytes, up8, written};
ghost use Rattle.offload_binary.specs.Writer.{bad_part, bad_pair, bad_pairs, given, write};
ghost use Rattle.offload_binary.specs.Results.{written_of};
ghost use Rattle.offload_binary_writer.specs.Code.{IsShort, pair_len, strings, laid, LayoutIs, word_bytes, head_words, image_bytes};

use offload_binary::{Part, StringPair, Tags};
use wire::{Reason, Refusal};

// Most bytes in a binary, and in an image.
const LIMIT: usize = 1073741824;

// Where the parts of a binary stand: its strings from `strings` to `end`, its image from `image` to `stop`.
#[derive(Clone, Copy)]
struct Layout {
    strings: usize,
    end: usize,
    image: usize,
    stop: usize,
    size: usize,
}

fn has_zero(text: &[u8]) -> bool
    ensures { result ≡ ended text.now }
{
    text.contains(&0)
}

// 16 of a part of the string buffer: outside it, over 256 bytes, or with a zero byte inside.
#[tactic(auto, unfolding(offload_binary::specs::Writer::bad_part))]
fn bad_part(buf: &[u8], part: Part) -> bool
    ensures { result ≡ bad_part buf.now part }
{
    offload_binary_parts::passes(buf.len(), part.start, part.len)
        || 256 < part.len
        || has_zero(offload_binary_parts::bytes_at(buf, part))
}

// 16 of a pair.
#[tactic(auto, unfolding(offload_binary::specs::Writer::bad_pair))]
fn bad_pair(buf: &[u8], pair: StringPair) -> bool
    ensures { result ≡ bad_pair buf.now pair }
{
    bad_part(buf, pair.key) || bad_part(buf, pair.text) || pair.key.len == 0
}

fn has_bad_pair(buf: &[u8], pairs: &[StringPair]) -> bool
    ensures { result ≡ list_any (bad_pair buf.now) pairs.now }
{
    pairs.iter().any(|pair| bad_pair(buf, *pair))
}

// 16.
#[tactic(auto, using(crate::proofs::PartLaws::any_bad), unfolding(offload_binary::specs::Writer::bad_pairs, offload_binary::specs::Binary::equal_keys))]
fn bad_pairs(buf: &[u8], pairs: &[StringPair]) -> bool
    ensures { result ≡ bad_pairs buf.now pairs.now }
{
    32 < pairs.len() || has_bad_pair(buf, pairs) || offload_binary_parts::has_equal_keys(buf, pairs)
}

// How long the strings of pairs are with their zero bytes.
fn strings_len(pairs: &[StringPair]) -> usize
    requires { (length pairs.now ≤ 32) × All IsShort pairs.now }
    ensures { (result ≡ sum_by pair_len pairs.now) × (result ≤ 514 * length pairs.now) }
{
    let mut len = 0;
    for pair in pairs {
        len += pair.key.len + pair.text.len + 2;
    }
    len
}

// The next multiple of 8.
#[tactic(auto, unfolding(offload_binary::specs::Contents::up8))]
fn up_to_8(n: usize) -> usize
    requires { n ≤ 4294967296 }
    ensures { result ≡ up8 n }
{
    n.next_multiple_of(8)
}

// n zero bytes at `at`.
fn put_zeros(out: &mut [u8], at: usize, n: usize)
    requires { n ≤ 8 }
    ensures { out.new ≡ overwrite out.old at (replicate n 0) }
{
    let zeros = [0u8; 8];
    wire_copy::copy_at(out, at, &zeros[..n]);
}

// Bytes at `at`, and n zero bytes behind them.
fn put_padded(out: &mut [u8], at: usize, bytes: &[u8], n: usize)
    requires { (at + length bytes.now + n ≤ length out.old) × (n ≤ 8) }
    ensures { out.new ≡ overwrite out.old at (bytes.now ++ replicate n 0) }
{
    wire_copy::copy_at(out, at, bytes);
    put_zeros(out, at + bytes.len(), n);
}

// The words, 8 bytes each, from the start of the output on.
fn put_words(out: &mut [u8], words: &[u64])
    requires { 8 * length words.now ≤ length out.old }
    ensures { out.new ≡ overwrite out.old 0 (word_bytes words.now) }
{
    for (i, word) in words.iter().enumerate() {
        wire_write::put_word8(out, 8 * i, *word);
    }
}

// The header and the entry of a binary with `count` pairs and an image of `len` bytes: the first word is the magic number and the version, the fifth the
// kinds and the flags, so that all fields have one width.
#[tactic(auto, unfolding(crate::specs::Code::head_words, crate::specs::Code::tags_word))]
fn write_head(out: &mut [u8], tags: Tags, count: usize, len: usize, at: Layout)
    requires { 72 ≤ length out.old }
    ensures { out.new ≡ overwrite out.old 0 (word_bytes (head_words tags count at.image len at.size)) }
{
    let flags = u64::from(tags.flags);
    let kinds = tags.image_kind % 65536 + 65536 * (tags.offload_kind % 65536 + 65536 * flags);
    put_words(
        out,
        &[
            0x1AD10FF10,
            at.size as u64,
            32,
            40,
            kinds,
            72,
            count as u64,
            at.image as u64,
            len as u64,
        ],
    );
}

// A string with its zero byte at `at`, and that offset in a field before it. The next string stands at what is returned.
fn put_string(out: &mut [u8], field: usize, at: usize, text: &[u8]) -> usize
    requires { (field + 8 ≤ at) × (at + length text.now + 1 ≤ length out.old) }
    ensures { (result ≡ at + length text.now + 1) × (out.new ≡ overwrite (overwrite out.old field (bytes_of 8 at)) at (text.now ++ 0 ∷ [])) }
{
    wire_write::put_word8(out, field, at as u64);
    put_padded(out, at, text, 1);
    at + text.len() + 1
}

// The offsets of the pairs' strings, at 72, and the strings with their zero bytes, from `first` on.
fn write_strings(out: &mut [u8], buf: &[u8], pairs: &[StringPair], first: usize)
    requires { (first ≡ 72 + 16 * length pairs.now) × (length pairs.now ≤ 32) × (first + length (string_bytes (strings buf.now pairs.now)) ≤ length out.old) }
    ensures { out.new ≡ laid first (strings buf.now pairs.now) out.old }
{
    let mut at = first;
    for (i, pair) in pairs.iter().enumerate() {
        let field = 72 + 16 * i;
        let key = offload_binary_parts::bytes_at(buf, pair.key);
        let text = offload_binary_parts::bytes_at(buf, pair.text);
        at = put_string(out, field, at, key);
        at = put_string(out, field + 8, at, text);
    }
}

// Where the parts of a binary with these pairs and an image of `len` bytes stand.
fn places(pairs: &[StringPair], len: usize) -> Layout
    requires { (length pairs.now ≤ 32) × All IsShort pairs.now × (len ≤ 1073741824) }
    ensures { LayoutIs pairs.now len result }
{
    let strings = 72 + 16 * pairs.len();
    let end = strings + strings_len(pairs);
    let image = up_to_8(end);
    let stop = image + len;
    let size = up_to_8(stop);
    Layout {
        strings,
        end,
        image,
        stop,
        size,
    }
}

// What follows the strings: zero bytes up to the image, the image, and zero bytes up to the end.
fn write_image(out: &mut [u8], image: &[u8], at: Layout)
    requires { (at.image ≡ up8 at.end) × ((at.stop ≡ at.image + length image.now) × ((at.size ≡ up8 at.stop) × (at.size ≤ length out.old))) }
    ensures { out.new ≡ overwrite out.old at.end (image_bytes at image.now) }
{
    put_zeros(out, at.end, at.image - at.end);
    put_padded(out, at.image, image, at.size - at.stop);
}

// The whole binary, from the start of the output on.
fn write_parts(
    out: &mut [u8],
    tags: Tags,
    image: &[u8],
    pairs: &[StringPair],
    buf: &[u8],
    at: Layout,
)
    requires { (bad_pairs buf.now pairs.now ≡ false) × LayoutIs pairs.now (length image.now) at × (at.size ≤ length out.old) }
    ensures { out.new ≡ overwrite out.old 0 (written (given tags image.now pairs.now buf.now)) }
{
    write_head(out, tags, pairs.len(), image.len(), at);
    write_strings(out, buf, pairs, at.strings);
    write_image(out, image, at);
}

// Writes a binary with these kinds and flags, this image, and string pairs that name parts of `buf`, and returns its length. More than 32 pairs are refused
// by 16.
pub fn write_binary(
    tags: Tags,
    image: &[u8],
    pairs: &[StringPair],
    buf: &[u8],
    out: &mut [u8],
) -> Result<usize, Refusal>
    ensures { (written_of result ≡ (write tags image.now pairs.now buf.now out.old).answer) × (out.new ≡ (write tags image.now pairs.now buf.now out.old).out) }
{
    if offload_binary_parts::bad_kinds(tags.image_kind, tags.offload_kind) {
        return Err(Reason::Kind.at(0));
    }
    if bad_pairs(buf, pairs) {
        return Err(Reason::Strings.at(0));
    }
    if LIMIT < image.len() {
        return Err(Reason::Big.at(0));
    }
    let at = places(pairs, image.len());
    if LIMIT < at.size {
        return Err(Reason::Big.at(0));
    }
    if out.len() < at.size {
        return Err(Reason::Room.at(0));
    }
    write_parts(out, tags, image, pairs, buf, at);
    Ok(at.size)
}
