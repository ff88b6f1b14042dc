// Words, comparisons and copies of bytes.
ghost use Rattle.std.specs.Prelude.{◌≡◌};
ghost use Rattle.wire.specs.Word.{word, bytes_of};
ghost use Rattle.wire.specs.Bytes.{same, before, common, overwrite};

fn expect_words(s: &[u8], at: usize, two: u64, four: u64, eight: u64)
    requires { (word 2 s.now at ≡ two) × (word 4 s.now at ≡ four) × (word 8 s.now at ≡ eight) }
{
    check::expect(wire_read::word_at::<2>(s, at) == two);
    check::expect(wire_read::word_at::<4>(s, at) == four);
    check::expect(wire_read::word_at::<8>(s, at) == eight);
}

pub(crate) fn words() {
    expect_words(
        b"\x01\x02\x03\x04\x05\x06\x07\x08",
        0,
        0x201,
        0x4030201,
        0x807060504030201,
    );
    expect_words(&[255; 9], 1, 65535, 4294967295, 18446744073709551615);
    // past the end a byte counts 0
    expect_words(b"\x01\x02\x03", 1, 0x302, 0x302, 0x302);
    expect_words(b"\x01\x02\x03", 18446744073709551615, 0, 0, 0);
}

fn expect_compared(a: &[u8], b: &[u8], shared: usize, equal: bool, first: bool)
    requires { (common a.now b.now ≡ shared) × (same a.now b.now ≡ equal) × (before a.now b.now ≡ first) }
{
    check::expect(wire_read::common_prefix(a, b) == shared);
    check::expect(wire_read::same_bytes(a, b) == equal);
    check::expect(wire_read::comes_before(a, b) == first);
}

pub(crate) fn comparisons() {
    expect_compared(b"", b"", 0, true, false);
    expect_compared(b"xnack", b"xnack+", 5, false, true);
    expect_compared(b"\xff", b"\x7f", 0, false, false);
    // a byte that is there and 0 is not the end
    expect_compared(b"x", b"x\0", 1, false, true);
    expect_compared(b"x\0\0\0\0\0\0\0\0", b"x", 1, false, false);
}

// Longer than a word of 8 bytes: where in a word the first difference is, and that it alone decides.
pub(crate) fn long_comparisons() {
    expect_compared(
        b"0123456789abcdef0123456789abcdef",
        b"0123456789abcdef0123456789abcdef",
        32,
        true,
        false,
    );
    expect_compared(
        b"0123456789abcdef0123456789abcdef",
        b"0123456789abcdef1023456789abcdef",
        16,
        false,
        true,
    );
    expect_compared(
        b"0123456789abcdef0123_56789abcdef",
        b"0123456789abcdef0123456789abcdef",
        20,
        false,
        false,
    );
    expect_compared(
        b"0123456789abcdef0123456089abcdef",
        b"0123456789abcdef0123456789abcdef",
        23,
        false,
        true,
    );
}

// Seven bytes behind the last word.
pub(crate) fn end_comparisons() {
    expect_compared(b"0123456789abcde", b"0123456789abcde", 15, true, false);
    expect_compared(b"0123456789abcde", b"0123456789abcd", 14, false, false);
    expect_compared(b"0123456789abcde", b"0123456789abce0", 13, false, true);
    expect_compared(b"0123456789b", b"0123456789abcde", 10, false, false);
}

// Not one function with `expect_copy`: a closure over the call would need a clause that says what it writes.
fn expect_put(out: &mut [u8], at: usize, value: u64, after: &[u8])
    requires { overwrite out.old at (bytes_of 8 value) ≡ after.now }
{
    wire_write::put_word8(out, at, value);
    check::expect(check::same(out, after));
}

pub(crate) fn puts() {
    expect_put(
        &mut [b'.'; 10],
        1,
        0x807060504030201,
        b".\x01\x02\x03\x04\x05\x06\x07\x08.",
    );
    // what does not fit leaves the output as it was
    expect_put(&mut [b'.'; 10], 3, 0x807060504030201, &[b'.'; 10]);
    expect_put(&mut [b'.'; 10], 18446744073709551615, 1, &[b'.'; 10]);
}

fn expect_copy(out: &mut [u8], at: usize, src: &[u8], after: &[u8])
    requires { overwrite out.old at src.now ≡ after.now }
{
    wire_copy::copy_at(out, at, src);
    check::expect(check::same(out, after));
}

pub(crate) fn copies() {
    expect_copy(&mut [b'.'; 5], 1, b"abc", b".abc.");
    expect_copy(&mut [b'.'; 5], 5, b"", &[b'.'; 5]);
}

// What does not fit leaves the output as it was.
pub(crate) fn no_copies() {
    expect_copy(&mut [b'.'; 5], 3, b"abc", &[b'.'; 5]);
    expect_copy(&mut [b'.'; 5], 6, b"", &[b'.'; 5]);
    expect_copy(&mut [b'.'; 5], 18446744073709551615, b"abc", &[b'.'; 5]);
}
