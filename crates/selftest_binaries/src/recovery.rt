// Binaries recovered from damaged sequences.
// What is expected is given as numbers, since each case is an equation with a definition, which answers numbers.
ghost use Rattle.std.specs.Prelude.{◌≡◌, [], ◌∷◌, length};
ghost use Rattle.offload_binary.specs.Recovery.{recover, copied_to, skipped_to};

use crate::binaries::BARE;
use offload_binary::Recovered;

// The binary of 72 bytes, with three bytes before it and two behind.
const DAMAGED: [u8; 77] = *b"\x10\xff\x10\
    \x10\xff\x10\xad\x01\0\0\0\x48\0\0\0\0\0\0\0\x20\0\0\0\0\0\0\0\x28\0\0\0\0\0\0\0\
    \0\0\0\0\0\0\0\0\x48\0\0\0\0\0\0\0\0\0\0\0\0\0\0\0\x48\0\0\0\0\0\0\0\0\0\0\0\0\0\0\0\
    ab";

// An output of 73 bytes, when the binary has been copied to it.
const COPIED: [u8; 73] =
    *b"\x10\xff\x10\xad\x01\0\0\0\x48\0\0\0\0\0\0\0\x20\0\0\0\0\0\0\0\x28\0\0\0\0\0\0\0\
    \0\0\0\0\0\0\0\0\x48\0\0\0\0\0\0\0\0\0\0\0\0\0\0\0\x48\0\0\0\0\0\0\0\0\0\0\0\0\0\0\0\
    \x07";

// The binary twice, with a byte before it, between and behind.
const THREE_SPANS: [u8; 147] = *b"a\
    \x10\xff\x10\xad\x01\0\0\0\x48\0\0\0\0\0\0\0\x20\0\0\0\0\0\0\0\x28\0\0\0\0\0\0\0\
    \0\0\0\0\0\0\0\0\x48\0\0\0\0\0\0\0\0\0\0\0\0\0\0\0\x48\0\0\0\0\0\0\0\0\0\0\0\0\0\0\0\
    b\
    \x10\xff\x10\xad\x01\0\0\0\x48\0\0\0\0\0\0\0\x20\0\0\0\0\0\0\0\x28\0\0\0\0\0\0\0\
    \0\0\0\0\0\0\0\0\x48\0\0\0\0\0\0\0\0\0\0\0\0\0\0\0\x48\0\0\0\0\0\0\0\0\0\0\0\0\0\0\0\
    c";

// What the call returns where two spans are lent, and what it leaves in the output and in the list.
fn expect_recovered(
    binaries: &[u8],
    out: &mut [u8],
    number: usize,
    written: usize,
    count: usize,
    after: &[u8],
    first: [u64; 2],
    second: [u64; 2],
)
    requires { (recover binaries.now (length out.old) 2 ≡ record { number = number; place = 0; length = written; spans = count }) × (copied_to binaries.now 2 out.old ≡ after.now) × (skipped_to binaries.now (length out.old) ((1 ∷ 2 ∷ []) ∷ (3 ∷ 4 ∷ []) ∷ []) ≡ first ∷ second ∷ []) }
{
    let mut spans = [[1u64, 2], [3, 4]];
    let r = Recovered::from(offload_binary_recovery::recover(binaries, out, &mut spans));
    check::expect(
        (r.number == number) & (r.place == 0) & (r.length == written) & (r.spans == count),
    );
    check::expect(check::same(out, after));
    let a = spans[0];
    let b = spans[1];
    check::expect(
        (a[0] == first[0]) & (a[1] == first[1]) & (b[0] == second[0]) & (b[1] == second[1]),
    );
}

// A span before the binary and one behind it; the output is longer than what is copied.
pub(crate) fn damaged() {
    let mut out = [7u8; 73];
    expect_recovered(&DAMAGED, &mut out, 0, 72, 2, &COPIED, [0, 3], [75, 2]);
}

// What is not damaged comes out unchanged, and nothing is skipped.
pub(crate) fn sound() {
    let mut out = [7u8; 73];
    expect_recovered(&BARE, &mut out, 0, 72, 0, &COPIED, [1, 2], [3, 4]);
}

// No binary is found: one span, or none of no bytes.
pub(crate) fn nothing() {
    let mut out = [7u8; 1];
    expect_recovered(b"\x10\xff", &mut out, 0, 0, 1, b"\x07", [0, 2], [3, 4]);
    let mut other = [7u8; 1];
    expect_recovered(b"", &mut other, 0, 0, 0, b"\x07", [1, 2], [3, 4]);
}

// One byte is lacking for the binary; one span for the list. Neither is written.
pub(crate) fn no_room() {
    let mut out = [7u8; 71];
    expect_recovered(&DAMAGED, &mut out, 12, 0, 0, &[7; 71], [1, 2], [3, 4]);
    let mut more = [7u8; 144];
    expect_recovered(&THREE_SPANS, &mut more, 12, 0, 0, &[7; 144], [1, 2], [3, 4]);
}
