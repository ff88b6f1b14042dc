// The features of an ID as spans of its text, and their order.
ghost use Rattle.std.specs.Prelude.{◌≡◌, suc, ◌+◌, ◌<◌, ◌≤◌, true, false, ◌&&◌, T, leb, length, take, drop, MatchOption};
ghost use Rattle.std.specs.Ordering.{is_lt, is_eq};
ghost use Rattle.wire.specs.Lists.{every};
ghost use Rattle.entry_id.specs.Text.{split_on};
ghost use Rattle.entry_id.specs.Scan.{ends_at, pieces_at};
ghost use Rattle.canonical_form.specs.Spans.{piece_ok, Piece, Pieces, PlacedIs, SortedIs, good, name_of, chunk_of};
ghost use Rattle.wire.specs.Bytes.{same, before};
ghost use Rattle.wire.specs.Order.{rising_by};

use crate::scan::{byte, ends, name_end};
use std::cmp::Ordering;

// A feature: where its ':' stands, and where its sign does.
#[derive(Clone, Copy)]
pub(crate) struct Span {
    pub at: usize,
    pub sign: usize,
}

// Two parts with bounds and a definition each: one function for both would take the bounds from its callers.
impl Span {
    // The name of the feature.
    fn name(self, id: &[u8]) -> &[u8]
        requires { T (good id.now self) }
        ensures { result.now ≡ name_of id.now self }
    {
        &id[self.at + 1..self.sign]
    }

    // The feature with the ':' before it and its sign.
    pub(crate) fn chunk(self, id: &[u8]) -> &[u8]
        requires { T (good id.now self) }
        ensures { result.now ≡ chunk_of id.now self }
    {
        &id[self.at..self.sign + 1]
    }
}

// The place of the sign that ends the feature whose name starts at from; none where the piece is no feature.
fn sign_at(id: &[u8], from: usize) -> Option<usize>
    requires { from ≤ length id.now }
    ensures { MatchOption result (every piece_ok (split_on 58 (drop from id.now)) ≡ false) (Piece id.now from) }
{
    let r = name_end(id, from);
    if r == from {
        return None;
    }
    let s = byte(id, r);
    if !((s == b'+') | (s == b'-')) {
        return None;
    }
    if ends(id, r + 1) {
        return Some(r);
    }
    None
}

// Reads the features after the head into spans, and tells how many there are; none where a piece is no feature, or there are more than 8.
pub(crate) fn read_pieces(id: &[u8], stop: usize, spans: &mut [Span; 8]) -> Option<usize>
    requires { (stop ≤ length id.now) × (ends_at id.now stop ≡ true) }
    ensures { MatchOption result ((every piece_ok (pieces_at id.now stop) && leb (length (pieces_at id.now stop)) 8) ≡ false) (λ n. Pieces id.now stop n spans.new) }
{
    let mut n = 0;
    let mut at = stop;
    // Not a range: each step goes behind a feature.
    while at < id.len() {
        let sign = sign_at(id, at + 1)?;
        if n == 8 {
            return None;
        }
        spans[n] = Span { at, sign };
        n += 1;
        at = sign + 1;
    }
    Some(n)
}

// How two names stand to each other, by one comparison.
fn compared(a: &[u8], b: &[u8]) -> Ordering
    ensures { (is_lt result ≡ before a.now b.now) × (is_eq result ≡ same a.now b.now) }
{
    let n = wire_read::common_prefix(a, b);
    if (n < a.len()) & (n < b.len()) {
        return a[n].cmp(&b[n]);
    }
    a.len().cmp(&b.len())
}

// The first feature goes to its place among the others, which are in order; tells whether it stays where it is. A name that is there already is refused.
// `sort` lends it a longer tail of the spans each time: a struct of text and spans would be made anew for each.
fn place(id: &[u8], spans: &mut [Span]) -> Option<bool>
    requires { (0 < length spans.old) × T (every (good id.now) spans.old) × T (rising_by (name_of id.now) (drop 1 spans.old)) }
    ensures { PlacedIs id.now spans.old result spans.new }
{
    for i in 0..spans.len() - 1 {
        let f = spans[i];
        let g = spans[i + 1];
        match compared(f.name(id), g.name(id)) {
            Ordering::Less => return Some(i == 0),
            Ordering::Equal => return None,
            Ordering::Greater => {
                spans[i] = g;
                spans[i + 1] = f;
            }
        }
    }
    Some(spans.len() == 1)
}

// Puts features in order of their names; tells whether they were. A name that stands twice is refused. std's sort would tell neither.
pub(crate) fn sort(id: &[u8], spans: &mut [Span]) -> Option<bool>
    requires { T (every (good id.now) spans.old) }
    ensures { SortedIs id.now spans.old result spans.new }
{
    let mut tidy = true;
    for k in (0..spans.len()).rev() {
        tidy &= place(id, &mut spans[k..])?;
    }
    Some(tidy)
}
