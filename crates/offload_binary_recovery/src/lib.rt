// Recovers the binaries of a damaged sequence: each is copied out, and what is skipped between them is reported.
#![tactic(auto)]

ghost use Rattle.std.specs.Prelude.{◌≡◌, ◌+◌, ◌^◌, ◌<◌, ◌≤◌, false, MatchOption, map, length, take};
ghost use Rattle.wire.specs.Bytes.{overwrite};
ghost use Rattle.wire.specs.Rows.{Added};
ghost use Rattle.offload_binary.specs.Recovery.{passes as passesAt, gap, taken, skipped, copied, span_row, recover as recoverOf, copied_to, skipped_to};
ghost use Rattle.offload_binary.specs.Results.{recovered_of};
ghost use Rattle.offload_binary_recovery.specs.Code.{NonePasses, LowestBetween, Found};

use offload_binary::{Part, Recovery};
use wire::{Reason, Refusal};

// Most bytes in a sequence, and most binaries. One binary more is looked for, since it refuses the call.
const LIMIT: usize = 1073741824;

const BINARIES: usize = 64;

const FOUND: usize = 65;

// The first eight bytes of a binary, as a word: 10 FF 10 AD, and version 1.
const HEAD: u64 = 0x1AD10FF10;

// How many positions are looked at together.
const BLOCK: usize = 64;

// The binaries found: how many, their bytes together, and their parts.
// No heap: an array with room for all, and how many of its places count.
#[derive(Clone, Copy)]
struct Finds {
    count: usize,
    total: usize,
    list: [Part; FOUND],
}

impl Finds {
    fn parts(&self) -> &[Part]
        requires { self.now.count ≤ 65 }
        ensures { result.now ≡ take self.now.count self.now.list }
    {
        &self.list[..self.count]
    }
}

// The lowest position from one place on and before another at which a binary's first eight bytes stand. These tell most positions, in a loop of their own.
fn next_head(s: &[u8], from: usize, to: usize) -> Option<usize>
    requires { from ≤ to }
    ensures { MatchOption result (NonePasses s.now from to) (λ q. (from ≤ q) × (q < to) × NonePasses s.now from q) }
{
    for p in from..to {
        if wire_read::word_at::<8>(s, p) == HEAD {
            return Some(p);
        }
    }
    None
}

// A binary at p passes 13 to 17.
fn passes(s: &[u8], p: usize) -> bool
    ensures { result ≡ passesAt s.now p }
{
    offload_binary_reader::binary_at(s, p).is_ok()
}

// The lowest position from one place on and before another at which one does.
fn lowest_between(s: &[u8], from: usize, to: usize) -> Option<usize>
    requires { (from ≤ to) × (to ≤ length s.now) }
    ensures { LowestBetween s.now from to result }
{
    let mut p = from;
    // Not a range: each step goes behind the next head.
    while let Some(q) = next_head(s, p, to) {
        if passes(s, q) {
            return Some(q);
        }
        p = q + 1;
    }
    None
}

// The four bytes 10 FF 10 AD stand at one of the 64 positions from p on. With optimisation 16 positions are compared at once.
fn has_magic(s: &[u8], p: usize) -> bool
    requires { p + 67 ≤ length s.now }
    ensures { result ≡ false → NonePasses s.now p (p + 64) }
{
    let mut hit = false;
    for i in 0..BLOCK {
        let at = p + i;
        hit = hit
            | ((s[at] == 0x10) & (s[at + 1] == 0xFF) & (s[at + 2] == 0x10) & (s[at + 3] == 0xAD));
    }
    hit
}

// The lowest of the 64 positions from p on.
fn lowest_in_block(s: &[u8], p: usize) -> Option<usize>
    requires { p + 67 ≤ length s.now }
    ensures { LowestBetween s.now p (p + 64) result }
{
    if has_magic(s, p) {
        return lowest_between(s, p, p + BLOCK);
    }
    None
}

// The lowest position from the cursor on at which a binary passes.
fn lowest(s: &[u8], cursor: usize) -> Option<usize>
    requires { cursor ≤ length s.now }
    ensures { LowestBetween s.now cursor (length s.now) result }
{
    let mut p = cursor;
    // Not a range: it goes by blocks, and what is left of them is looked at behind it.
    while BLOCK + 3 <= s.len() - p {
        if let Some(q) = lowest_in_block(s, p) {
            return Some(q);
        }
        p += BLOCK;
    }
    lowest_between(s, p, s.len())
}

// The first 65 binaries.
fn find_all(s: &[u8]) -> Finds
    ensures { Found s.now result.count result.total result.list }
{
    let none = Part { start: 0, len: 0 };
    let mut list = [none; FOUND];
    let mut cursor: usize = 0;
    let mut total: usize = 0;
    for n in 0..FOUND {
        let Some(p) = lowest(s, cursor) else {
            return Finds {
                count: n,
                total,
                list,
            };
        };
        let size = wire_read::word_at::<8>(s, p + 8) as usize;
        list[n] = Part {
            start: p,
            len: size,
        };
        cursor = p + size;
        total = total + size;
    }
    Finds {
        count: FOUND,
        total,
        list,
    }
}

// Puts what lies between two places, where anything does, at index k, where there is room, and returns the next index: one past the room says that a span
// was left out.
// A span is a row of two numbers, as the definition `span_row` has it and C gets it. `room` is not the list's length: an empty list counts.
fn put_gap(spans: &mut [[u64; 2]], room: usize, k: usize, from: usize, to: usize) -> usize
    requires { (k ≤ room + 1) × (room < 2 ^ 63) × (length spans.old ≤ room) }
    ensures { Added room spans.old k (map span_row (gap from to)) result spans.new }
{
    if to <= from {
        return k;
    }
    if k < spans.len() {
        spans[k] = [from as u64, (to - from) as u64];
        return k + 1;
    }
    (k + 1).min(room + 1)
}

// Puts what lies before, between and after the binaries found, as far as there is room, and returns how many spans that makes. An empty list counts them.
fn put_spans(s: &[u8], parts: &[Part], spans: &mut [[u64; 2]], room: usize) -> usize
    requires { (room < 2 ^ 63) × (length spans.old ≤ room) × (parts.now ≡ taken s.now) }
    ensures { Added room spans.old 0 (map span_row (skipped s.now)) result spans.new }
{
    let mut cursor: usize = 0;
    let mut k: usize = 0;
    for part in parts {
        let start = part.start;
        k = put_gap(spans, room, k, cursor, start);
        cursor = start + part.len;
    }
    put_gap(spans, room, k, cursor, s.len())
}

// Copies the binaries found, one after another.
fn put_copies(s: &[u8], parts: &[Part], out: &mut [u8])
    requires { (parts.now ≡ taken s.now) × (length (copied s.now) ≤ length out.old) }
    ensures { out.new ≡ overwrite out.old 0 (copied s.now) }
{
    let mut at: usize = 0;
    for part in parts {
        wire_copy::copy_at(out, at, offload_binary_parts::bytes_at(s, *part));
        at = at + part.len;
    }
}

// Recovers the binaries of a damaged sequence to `out`, and reports in `spans` what was skipped. Nothing is written before all is found and fits.
pub fn recover(s: &[u8], out: &mut [u8], spans: &mut [[u64; 2]]) -> Result<Recovery, Refusal>
    ensures value { recovered_of result ≡ recoverOf s.now (length out.old) (length spans.old) }
    ensures out_after { out.new ≡ copied_to s.now (length spans.old) out.old }
    ensures spans_after { spans.new ≡ skipped_to s.now (length out.old) spans.old }
{
    if LIMIT < s.len() {
        return Err(Reason::Length.at(0));
    }
    let f = find_all(s);
    let n = f.count;
    let list = f.list;
    if BINARIES < n {
        let last = list[BINARIES];
        return Err(Reason::Many.at(last.start));
    }
    let total = f.total;
    if out.len() < total {
        return Err(Reason::Room.at(0));
    }
    let room = spans.len();
    let mut none: [[u64; 2]; 0] = [];
    let parts = f.parts();
    let count = put_spans(s, parts, &mut none, room);
    if room < count {
        return Err(Reason::Room.at(0));
    }
    put_copies(s, parts, out);
    put_spans(s, parts, spans, room);
    Ok(Recovery {
        length: total,
        spans: count,
    })
}
