// The tests on two canonical forms: compatible, the same meaning, mixed. Each goes up to the first difference; hip and hipv4 are one kind.
#![tactic(auto)]

ghost use Rattle.std.specs.Prelude.{◌≡◌, ℕ, ◌≤◌, Bool, true, false, List, length, MatchOption};
ghost use Rattle.wire.specs.Lists.{any, every, agree};
ghost use Rattle.wire.specs.Bytes.{same, common};
ghost use Rattle.entry_id.specs.Text.{not_colon};
ghost use Rattle.entry_id.specs.Scan.{Run, pieces_at};
ghost use Rattle.entry_id.specs.Compare.{compared_kind};
ghost use Rattle.entry_id.specs.Canonical.{head_of, within, sign_byte, same_but_sign, compatible_spelled, mixed_spelled, compatible_text, same_text, mixed_text};
ghost use Rattle.entry_compare.specs.Meet.{Meet, KindEnds};
ghost use Rattle.entry_compare.specs.Relations.{is_same, is_mixed};

// The first ':' from `from` on, or the end, where a piece is cut.
// It is `find` in the words of IDs, `Run not_colon`: the crate `wire_read` knows no IDs.
fn colon(x: &[u8], from: usize) -> usize
    requires { from ≤ length x.now }
    ensures { Run not_colon x.now from result }
{
    wire_read::find(x, from, b':')
}

// Whether every piece of x, whose head ends at stop, passes a test.
fn all_pieces<F: Fn(&[u8]) -> bool>(x: &[u8], stop: usize, test: F) -> bool
    requires { F.IsAlwaysCallable test }
    ensures { (passes : List ℕ → Bool) → ((p : _) (r : Bool) → F.post test p r → r ≡ passes p.now) → result ≡ every passes (pieces_at x.now stop) }
{
    let mut at = stop;
    // Not a range: each step goes to the next ':'.
    while at < x.len() {
        let e = colon(x, at + 1);
        if !test(&x[at + 1..e]) {
            return false;
        }
        at = e;
    }
    true
}

// Whether p is among the pieces of x whose head ends at stop.
fn has_piece(x: &[u8], stop: usize, p: &[u8]) -> bool
    ensures { result ≡ any (same p.now) (pieces_at x.now stop) }
{
    !all_pieces(x, stop, |q| !wire_read::same_bytes(p, q))
}

// Whether each piece of a is among the pieces of b.
fn all_in(a: &[u8], s: usize, b: &[u8], t: usize) -> bool
    ensures { result ≡ within (pieces_at b.now t) (pieces_at a.now s) }
{
    all_pieces(a, s, |p| has_piece(b, t, p))
}

// A pattern would name the same two bytes.
fn sign_byte(b: u8) -> bool
    ensures { result ≡ sign_byte b }
{
    (b == b'+') | (b == b'-')
}

// How two entries stand to each other: the same meaning; equal heads and other feature names; neither.
#[derive(Clone, Copy, PartialEq, Eq)]
pub enum Relation {
    Same,
    Mixed,
    Apart,
}

// Where the first field ends.
fn kind_end(x: &[u8]) -> usize
    ensures { KindEnds x.now result }
{
    let d = wire_read::find(x, 0, b'-');
    wire_read::find(&x[..d], 0, b':')
}

// The kind that a kind is compared as: hip for hipv4.
fn compared_kind(kind: &[u8]) -> &[u8]
    ensures { result.now ≡ compared_kind kind.now }
{
    if wire_read::same_bytes(kind, b"hipv4") {
        return &kind[..3];
    }
    kind
}

// hip and hipv4 have three bytes in common. So with any other common start, kinds that are one are spelled alike, and nothing is cut.
const HIP: usize = 3;

// Two texts that are compared as they are spelled, and how many bytes they have in common from their start.
#[derive(Clone, Copy)]
struct Pair<'a> {
    a: &'a [u8],
    b: &'a [u8],
    shared: usize,
    ghost shared_is: { shared ≡ common a.now b.now },
}

impl<'a> Pair<'a> {
    ghost use Rattle.entry_compare.specs.Pairs.{Unlike, Stands};

    fn new(a: &'a [u8], b: &'a [u8]) -> Self
        ensures { (result.a.now ≡ a.now) × (result.b.now ≡ b.now) }
    {
        Pair {
            a,
            b,
            shared: wire_read::common_prefix(a, b),
        }
    }

    // What is compared of two texts; none where their kinds are not compared as one. It is what follows the kinds where these may be hip and hipv4.
    // Inlined, since it mostly only counts the bytes in common: as a call it takes a quarter of a comparison of equal texts.
    #[inline(always)]
    fn of(a: &'a [u8], b: &'a [u8]) -> Option<Self>
        ensures { MatchOption result (Unlike a.now b.now) (Stands a.now b.now) }
    {
        let pair = Pair::new(a, b);
        if pair.shared != HIP {
            return Some(pair);
        }
        let i = kind_end(a);
        let j = kind_end(b);
        if !wire_read::same_bytes(compared_kind(&a[..i]), compared_kind(&b[..j])) {
            return None;
        }
        Some(Pair::new(&a[i..], &b[j..]))
    }

    // Whether both are the same text.
    fn same(&self) -> bool
        ensures { result ≡ same self.now.a.now self.now.b.now }
    {
        (self.shared == self.a.len()) & (self.shared == self.b.len())
    }

    // Whether they are the same but for signs. It stops at the first other difference.
    fn alike(&self) -> bool
        ensures { result ≡ agree same_but_sign self.now.a.now self.now.b.now }
    {
        let a = self.a;
        let b = self.b;
        if a.len() != b.len() {
            return false;
        }
        let mut at = self.shared;
        // Not a range: each step goes behind the next difference.
        while at < a.len() {
            if !(sign_byte(a[at]) & sign_byte(b[at])) {
                return false;
            }
            let i = at + 1;
            at = i + wire_read::common_prefix(&a[i..], &b[i..]);
        }
        true
    }

    // Where their heads end, if these are the same.
    fn head_end(&self) -> Option<usize>
        ensures { MatchOption result (same (head_of self.now.a.now) (head_of self.now.b.now) ≡ false) (Meet self.now.a.now self.now.b.now) }
    {
        let b = self.b;
        let e = colon(self.a, 0);
        if self.shared < e {
            return None;
        }
        if (e < b.len()) && (b[e] != b':') {
            return None;
        }
        Some(e)
    }

    // Whether the first, as an entry, is compatible with the second. The same text is the most common answer, and the quickest.
    fn compatible(&self) -> bool
        ensures { result ≡ compatible_spelled self.now.a.now self.now.b.now }
    {
        if self.same() {
            return true;
        }
        match self.head_end() {
            Some(e) => all_in(self.a, e, self.b, e),
            None => false,
        }
    }

    // How they stand to each other.
    fn relation(&self) -> Relation
        ensures { (is_same result ≡ same self.now.a.now self.now.b.now) × (is_mixed result ≡ mixed_spelled self.now.a.now self.now.b.now) }
    {
        if self.same() {
            return Relation::Same;
        }
        if self.alike() {
            return Relation::Apart;
        }
        match self.head_end() {
            Some(_) => Relation::Mixed,
            None => Relation::Apart,
        }
    }
}

// Whether an entry is compatible with a device, both in canonical form.
pub fn compatible(entry: &[u8], device: &[u8]) -> bool
    ensures { result ≡ compatible_text entry.now device.now }
{
    match Pair::of(entry, device) {
        Some(pair) => pair.compatible(),
        None => false,
    }
}

// How two entries in canonical form stand to each other.
pub fn relation_of(a: &[u8], b: &[u8]) -> Relation
    ensures { (is_same result ≡ same_text a.now b.now) × (is_mixed result ≡ mixed_text a.now b.now) }
{
    match Pair::of(a, b) {
        Some(pair) => pair.relation(),
        None => Relation::Apart,
    }
}
