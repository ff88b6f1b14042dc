// The binary writer.
// What is expected is given as numbers, since each case is an equation with a definition, which answers numbers.
ghost use Rattle.std.specs.Prelude.{◌≡◌, ◌≤◌, [], ◌∷◌, take, replicate};
ghost use Rattle.offload_binary.specs.Binary.{no_pair};
ghost use Rattle.offload_binary.specs.Writer.{write};

use offload_binary::{NO_PAIR, Part, StringPair, Tags, Written};

// Keys and texts of two pairs.
const STRINGS: [u8; 34] = *b"archsm_70triplenvptx64-nvidia-cuda";

// `arch` and `sm_70`.
const ARCH: StringPair = StringPair {
    key: Part { start: 0, len: 4 },
    text: Part { start: 4, len: 5 },
};

// `triple` and `nvptx64-nvidia-cuda`.
const TRIPLE: StringPair = StringPair {
    key: Part { start: 9, len: 6 },
    text: Part { start: 15, len: 19 },
};

// No kinds and no flags.
const NO_TAGS: Tags = Tags {
    image_kind: 0,
    offload_kind: 0,
    flags: 0,
};

// An object for CUDA.
const CUDA: Tags = Tags {
    image_kind: 1,
    offload_kind: 2,
    flags: 7,
};

// An image kind that is none.
const NO_KIND: Tags = Tags {
    image_kind: 6,
    offload_kind: 2,
    flags: 7,
};

// What the binary writer makes of them, with an image of one byte.
const PAIRS_BINARY: [u8; 152] =
    *b"\x10\xff\x10\xad\x01\0\0\0\x98\0\0\0\0\0\0\0\x20\0\0\0\0\0\0\0\x28\0\0\0\0\0\0\0\
    \x01\0\x02\0\x07\0\0\0\x48\0\0\0\0\0\0\0\x02\0\0\0\0\0\0\0\x90\0\0\0\0\0\0\0\x01\0\0\0\0\0\0\0\
    \x68\0\0\0\0\0\0\0\x6d\0\0\0\0\0\0\0\x73\0\0\0\0\0\0\0\x7a\0\0\0\0\0\0\0\
    arch\0sm_70\0triple\0nvptx64-nvidia-cuda\0\0\0\
    x\0\0\0\0\0\0\0";

// Writes a binary with two string pairs, which are lent as a list.
fn write_pairs(
    x: StringPair,
    y: StringPair,
    tags: Tags,
    image: &[u8],
    strings: &[u8],
    out: &mut [u8],
) -> Written
    ensures { (result ≡ (write tags image.now (x ∷ y ∷ []) strings.now out.old).answer) × (out.new ≡ (write tags image.now (x ∷ y ∷ []) strings.now out.old).out) }
{
    offload_binary_writer::write_binary(tags, image, &[x, y], strings, out).into()
}

// What the binary writer returns for two pairs, and what it leaves in `out`.
fn expect_pairs(
    x: StringPair,
    y: StringPair,
    tags: Tags,
    image: &[u8],
    strings: &[u8],
    out: &mut [u8],
    number: usize,
    written: usize,
    after: &[u8],
)
    requires { write tags image.now (x ∷ y ∷ []) strings.now out.old ≡ record { answer = record { number = number; place = 0; len = written }; out = after.now } }
{
    let r = write_pairs(x, y, tags, image, strings, out);
    check::expect((r.number == number) & (r.place == 0) & (r.len == written));
    check::expect(check::same(out, after));
}

// Room that is just enough.
pub(crate) fn written() {
    expect_pairs(
        ARCH,
        TRIPLE,
        CUDA,
        b"x",
        &STRINGS,
        &mut [b'.'; 152],
        0,
        152,
        &PAIRS_BINARY,
    );
}

// A byte of room beyond.
pub(crate) fn written_before() {
    expect_pairs(
        ARCH,
        TRIPLE,
        CUDA,
        b"x",
        &STRINGS,
        &mut [b'.'; 153],
        0,
        152,
        b"\x10\xff\x10\xad\x01\0\0\0\x98\0\0\0\0\0\0\0\x20\0\0\0\0\0\0\0\x28\0\0\0\0\0\0\0\
        \x01\0\x02\0\x07\0\0\0\x48\0\0\0\0\0\0\0\x02\0\0\0\0\0\0\0\x90\0\0\0\0\0\0\0\x01\0\0\0\0\0\0\0\
        \x68\0\0\0\0\0\0\0\x6d\0\0\0\0\0\0\0\x73\0\0\0\0\0\0\0\x7a\0\0\0\0\0\0\0\
        arch\0sm_70\0triple\0nvptx64-nvidia-cuda\0\0\0\
        x\0\0\0\0\0\0\0.",
    );
}

// ROOM with one byte less.
pub(crate) fn no_room() {
    expect_pairs(
        ARCH,
        TRIPLE,
        CUDA,
        b"x",
        &STRINGS,
        &mut [b'.'; 151],
        12,
        0,
        &[b'.'; 151],
    );
}

// KIND, and STRINGS of two equal keys.
pub(crate) fn not_written() {
    expect_pairs(
        ARCH,
        TRIPLE,
        NO_KIND,
        b"x",
        &STRINGS,
        &mut [b'.'; 1],
        15,
        0,
        b".",
    );
    expect_pairs(
        ARCH,
        ARCH,
        CUDA,
        b"x",
        &STRINGS,
        &mut [b'.'; 1],
        16,
        0,
        b".",
    );
}

// The same of a list of n pairs that starts with this one; the others are of no bytes.
fn expect_listed(
    x: StringPair,
    n: usize,
    tags: Tags,
    image: &[u8],
    strings: &[u8],
    out: &mut [u8],
    number: usize,
    written: usize,
    after: &[u8],
)
    requires few { n ≤ 33 }
    requires gives { write tags image.now (take n (x ∷ replicate 32 no_pair)) strings.now out.old ≡ record { answer = record { number = number; place = 0; len = written }; out = after.now } }
{
    let mut pairs = [NO_PAIR; 33];
    pairs[0] = x;
    let got = offload_binary_writer::write_binary(tags, image, &pairs[..n], strings, out);
    let r = Written::from(got);
    check::expect((r.number == number) & (r.place == 0) & (r.len == written));
    check::expect(check::same(out, after));
}

// "Binary with no strings and no image: 72 bytes."
pub(crate) fn bare() {
    expect_listed(
        ARCH,
        0,
        NO_TAGS,
        b"",
        b"archsm_70",
        &mut [b'.'; 72],
        0,
        72,
        b"\x10\xff\x10\xad\x01\0\0\0\x48\0\0\0\0\0\0\0\x20\0\0\0\0\0\0\0\x28\0\0\0\0\0\0\0\
        \0\0\0\0\0\0\0\0\x48\0\0\0\0\0\0\0\0\0\0\0\0\0\0\0\x48\0\0\0\0\0\0\0\0\0\0\0\0\0\0\0",
    );
}

// "With `arch`/`sm_70` and a 3-byte image: image at 104, size 112."
pub(crate) fn with_arch() {
    expect_listed(
        ARCH,
        1,
        NO_TAGS,
        b"abc",
        b"archsm_70",
        &mut [b'.'; 112],
        0,
        112,
        b"\x10\xff\x10\xad\x01\0\0\0\x70\0\0\0\0\0\0\0\x20\0\0\0\0\0\0\0\x28\0\0\0\0\0\0\0\
        \0\0\0\0\0\0\0\0\x48\0\0\0\0\0\0\0\x01\0\0\0\0\0\0\0\x68\0\0\0\0\0\0\0\x03\0\0\0\0\0\0\0\
        \x58\0\0\0\0\0\0\0\x5d\0\0\0\0\0\0\0arch\0sm_70\0\0\0\0\0\0\
        abc\0\0\0\0\0",
    );
}

// STRINGS of more than 32 pairs.
pub(crate) fn too_many() {
    expect_listed(
        ARCH,
        33,
        NO_TAGS,
        b"abc",
        b"archsm_70",
        &mut [b'.'; 1],
        16,
        0,
        b".",
    );
}
