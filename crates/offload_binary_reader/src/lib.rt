// Reads one of LLVM's offload binaries: what stands at a position of lent bytes.
// Words are cast to `usize` by `as`: both have 64 bits here, and std has no `From` between them.
#![tactic(auto)]

ghost use Rattle.std.specs.Prelude.{◌≡◌, ◌+◌, ◌*◌, ◌^◌, ◌<◌, ◌≤◌, eqb, position, length, take, drop};
ghost use Rattle.wire.specs.First.{any_below};
ghost use Rattle.wire.specs.Lists.{tab};
ghost use Rattle.offload_binary.specs.Lists.{slots};
ghost use Rattle.offload_binary.specs.Binary.{no_pair, bad_head, bad_span, bad_table, bad_string, bad_pair, bad_strings, bad_image, entry_of, string_at, pair, binary_at};
ghost use Rattle.offload_binary.specs.Results.{answer_of};
ghost use Rattle.offload_binary_reader.specs.Code.{unless, body_answer};

use offload_binary::{Binary, Entry, NO_PAIR, Part, StringPair};
use wire::{Reason, Refusal};

// The first four bytes of a binary.
const MAGIC: [u8; 4] = [0x10, 0xFF, 0x10, 0xAD];

// 13: under 32 bytes left, wrong first four, version not 1.
#[tactic(auto, unfolding(offload_binary::specs::Binary::bad_head, offload_binary::specs::Binary::bytes_at))]
fn bad_head(b: &[u8]) -> bool
    ensures { result ≡ bad_head b.now }
{
    b.len() < 32
        || !wire_read::same_bytes(
            offload_binary_parts::bytes_at(b, Part { start: 0, len: 4 }),
            &MAGIC,
        )
        || wire_read::word_at::<4>(b, 4) != 1
}

// 14: size under 72 or above what is left; entry size not 40; entry offset under 32, or its 40 bytes pass the size.
#[tactic(auto, unfolding(offload_binary::specs::Binary::bad_span, offload_binary::specs::Binary::size_of, offload_binary::specs::Binary::entry_at))]
fn bad_span(b: &[u8]) -> bool
    ensures { result ≡ bad_span b.now }
{
    let size = wire_read::word_at::<8>(b, 8) as usize;
    let entry = wire_read::word_at::<8>(b, 16) as usize;
    size < 72
        || b.len() < size
        || wire_read::word_at::<8>(b, 24) != 40
        || entry < 32
        || offload_binary_parts::passes(size, entry, 40)
}

// 16 of the table: more than 32; with at least one, pairs not between 32 and the size.
#[tactic(auto, unfolding(offload_binary::specs::Binary::bad_table))]
fn bad_table(size: usize, table: usize, count: usize) -> bool
    ensures { result ≡ bad_table size table count }
{
    32 < count || 0 < count && (table < 32 || offload_binary_parts::passes(size, table, 16 * count))
}

// 17: offset under 32, or offset + size above the binary's size.
#[tactic(auto, unfolding(offload_binary::specs::Binary::bad_image))]
fn bad_image(size: usize, image: Part) -> bool
    ensures { result ≡ bad_image size image }
{
    image.start < 32 || offload_binary_parts::passes(size, image.start, image.len)
}

#[tactic(auto, unfolding(offload_binary::specs::Binary::entry_of))]
fn read_entry(o: &[u8], at: usize) -> Entry
    requires { at + 40 < 2 ^ 64 }
    ensures { result ≡ entry_of o.now at }
{
    Entry {
        image_kind: wire_read::word_at::<2>(o, at),
        offload_kind: wire_read::word_at::<2>(o, at + 2),
        flags: wire_read::word_at::<4>(o, at + 4),
        table: wire_read::word_at::<8>(o, at + 8) as usize,
        count: wire_read::word_at::<8>(o, at + 16) as usize,
        image: Part {
            start: wire_read::word_at::<8>(o, at + 24) as usize,
            len: wire_read::word_at::<8>(o, at + 32) as usize,
        },
    }
}

// Where the first zero byte stands.
fn zero_at(t: &[u8]) -> Option<usize>
    ensures { result ≡ position (λ b. eqb b 0) t.now }
{
    t.iter().position(|byte| *byte == 0)
}

// The string at an offset of o, which starts at `from`, without its zero byte; none where 16 is given for it. At most 257 bytes are looked at.
fn read_string(o: &[u8], from: usize, at: usize) -> Option<Part>
    requires { from + length o.now < 2 ^ 64 }
    ensures { result ≡ unless (bad_string o.now at) (string_at from o.now at) }
{
    if at < 32 {
        return None;
    }
    let near = offload_binary_parts::bytes_at(
        o,
        Part {
            start: at,
            len: 257,
        },
    );
    let len = zero_at(near)?;
    Some(Part {
        start: from + at,
        len,
    })
}

// Pair i of the table at an offset of o; none where 16 is given for one of its strings.
fn read_pair(o: &[u8], from: usize, table: usize, i: usize) -> Option<StringPair>
    requires { (from + length o.now < 2 ^ 64) × (table + 16 * i + 16 ≤ length o.now) }
    ensures { result ≡ unless (bad_pair o.now table i) (pair from o.now table i) }
{
    let at = table + 16 * i;
    let key = read_string(o, from, wire_read::word_at::<8>(o, at) as usize)?;
    let text = read_string(o, from, wire_read::word_at::<8>(o, at + 8) as usize)?;
    if key.len == 0 {
        return None;
    }
    Some(StringPair { key, text })
}

// The n pairs of the table; none where 16 is given for a string of one.
fn read_pairs(o: &[u8], from: usize, table: usize, n: usize) -> Option<[StringPair; 32]>
    requires { (from + length o.now < 2 ^ 64) × ((n ≤ 32) × (0 < n → table + 16 * n ≤ length o.now)) }
    ensures { result ≡ unless (any_below n (bad_pair o.now table)) (slots 32 no_pair (tab n (pair from o.now table))) }
{
    let mut pairs = [NO_PAIR; 32];
    for i in 0..n {
        pairs[i] = read_pair(o, from, table, i)?;
    }
    Some(pairs)
}

// The pairs of the binary whose own bytes start at `from`; none where 16 is given.
fn read_strings(
    s: &[u8],
    own: &[u8],
    from: usize,
    table: usize,
    count: usize,
) -> Option<[StringPair; 32]>
    requires { (own.now ≡ take (length own.now) (drop from s.now)) × (from + length own.now ≤ length s.now) }
    ensures { result ≡ unless (bad_strings own.now table count) (slots 32 no_pair (tab count (pair from own.now table))) }
{
    if bad_table(own.len(), table, count) {
        return None;
    }
    let pairs = read_pairs(own, from, table, count)?;
    if offload_binary_parts::has_equal_keys(s, &pairs[..count]) {
        return None;
    }
    Some(pairs)
}

// 15 to 17 of the binary whose own bytes start at `from`, with its entry at an offset; where none is given, what it holds.
fn read_body(s: &[u8], own: &[u8], from: usize, at: usize) -> Result<Binary, Refusal>
    requires { (own.now ≡ take (length own.now) (drop from s.now)) × (from + length own.now ≤ length s.now) × (at + 40 ≤ length own.now) }
    ensures { answer_of result ≡ body_answer from own.now at }
{
    let entry = read_entry(own, at);
    if offload_binary_parts::bad_kinds(entry.image_kind, entry.offload_kind) {
        return Err(Reason::Kind.at(from));
    }
    let Some(pairs) = read_strings(s, own, from, entry.table, entry.count) else {
        return Err(Reason::Strings.at(from));
    };
    if bad_image(own.len(), entry.image) {
        return Err(Reason::Image.at(from));
    }
    Ok(Binary {
        start: from,
        size: own.len(),
        image_kind: entry.image_kind,
        offload_kind: entry.offload_kind,
        flags: entry.flags,
        image: Part {
            start: from + entry.image.start,
            len: entry.image.len,
        },
        count: entry.count,
        pairs,
    })
}

// 13 to 17 of the binary at a position; where none is given, what it holds.
pub fn binary_at(s: &[u8], position: usize) -> Result<Binary, Refusal>
    ensures { answer_of result ≡ binary_at s.now position }
{
    let left = offload_binary_parts::bytes_at(
        s,
        Part {
            start: position,
            len: s.len(),
        },
    );
    if bad_head(left) {
        return Err(Reason::Head.at(position));
    }
    if bad_span(left) {
        return Err(Reason::Span.at(position));
    }
    let size = wire_read::word_at::<8>(left, 8) as usize;
    let entry = wire_read::word_at::<8>(left, 16) as usize;
    read_body(s, &left[..size], position, entry)
}
