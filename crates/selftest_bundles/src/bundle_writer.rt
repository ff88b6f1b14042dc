// The bundle writer.
// What is expected is given as numbers, since each case is an equation with a definition, which answers numbers.
ghost use Rattle.std.specs.Prelude.{◌≡◌, [], ◌∷◌, length};
ghost use Rattle.entry_id.specs.Rules.{id_rules};
ghost use Rattle.bundle.specs.Writer.{write, written_to};

use bundle::{EntryRecord, Written};

// The IDs of two cards.
const CARDS: [u8; 70] = *b"hip-amdgcn-amd-amdhsa-gfx906:xnack-hip-amdgcn-amd-amdhsa-gfx906:xnack+";

// The first card, with image "abc" of "abcd".
const FIRST: EntryRecord = EntryRecord {
    id_start: 0,
    id_len: 35,
    image_start: 0,
    image_len: 3,
};

// The second, with image "cd". The two share a byte of the buffer: the bundle writer does not ask OVERLAP.
const SECOND: EntryRecord = EntryRecord {
    id_start: 35,
    id_len: 35,
    image_start: 2,
    image_len: 2,
};

// An ID that passes its buffer.
const PAST_IDS: EntryRecord = EntryRecord {
    id_start: 36,
    id_len: 35,
    image_start: 0,
    image_len: 0,
};

// `hip` alone.
const NO_ID: EntryRecord = EntryRecord {
    id_start: 0,
    id_len: 3,
    image_start: 0,
    image_len: 3,
};

// The second, with an image that passes its buffer.
const PAST_IMAGES: EntryRecord = EntryRecord {
    id_start: 35,
    id_len: 35,
    image_start: 2,
    image_len: 3,
};

// The second without its feature.
const ANY_XNACK: EntryRecord = EntryRecord {
    id_start: 35,
    id_len: 28,
    image_start: 0,
    image_len: 0,
};

// Both spellings of one kind, for one target.
const KINDS: [u8; 58] = *b"hip-amdgcn-amd-amdhsa-gfx906hipv4-amdgcn-amd-amdhsa-gfx906";

const HIP: EntryRecord = EntryRecord {
    id_start: 0,
    id_len: 28,
    image_start: 0,
    image_len: 0,
};

const HIPV4: EntryRecord = EntryRecord {
    id_start: 28,
    id_len: 30,
    image_start: 0,
    image_len: 0,
};

// What the bundle writer makes of two cards, with images "abc" and "cd".
const CARDS_BUNDLE: [u8; 157] = *b"__CLANG_OFFLOAD_BUNDLE__\x02\0\0\0\0\0\0\0\
    \x98\0\0\0\0\0\0\0\x03\0\0\0\0\0\0\0\x24\0\0\0\0\0\0\0hip-amdgcn-amd-amdhsa--gfx906:xnack-\
    \x9b\0\0\0\0\0\0\0\x02\0\0\0\0\0\0\0\x24\0\0\0\0\0\0\0hip-amdgcn-amd-amdhsa--gfx906:xnack+\
    abccd";

// Writes a bundle of two records, which are lent as a list.
fn write_two(x: EntryRecord, y: EntryRecord, ids: &[u8], images: &[u8], out: &mut [u8]) -> Written
    ensures { (result ≡ write id_rules 2 (x ∷ y ∷ []) ids.now images.now (length out.old)) × (out.new ≡ written_to id_rules 2 (x ∷ y ∷ []) ids.now images.now out.old) }
{
    let records = [x, y];
    Written::from(normal_form::write_bundle(&records, ids, images, out))
}

// What the bundle writer returns for two records, and what it leaves in `out`.
fn expect_bundle(
    x: EntryRecord,
    y: EntryRecord,
    ids: &[u8],
    images: &[u8],
    out: &mut [u8],
    number: usize,
    place: usize,
    written: usize,
    after: &[u8],
)
    requires { (write id_rules 2 (x ∷ y ∷ []) ids.now images.now (length out.old) ≡ record { number = number; place = place; length = written }) × (written_to id_rules 2 (x ∷ y ∷ []) ids.now images.now out.old ≡ after.now) }
{
    let r = write_two(x, y, ids, images, out);
    let expected = Written {
        number,
        place,
        length: written,
    };
    check::expect(r == expected);
    check::expect(check::same(out, after));
}

// Room that is just enough.
pub(crate) fn written() {
    expect_bundle(
        FIRST,
        SECOND,
        &CARDS,
        b"abcd",
        &mut [b'.'; 157],
        0,
        0,
        157,
        &CARDS_BUNDLE,
    );
}

// A byte of room beyond.
pub(crate) fn written_before() {
    expect_bundle(
        FIRST,
        SECOND,
        &CARDS,
        b"abcd",
        &mut [b'.'; 158],
        0,
        0,
        157,
        b"__CLANG_OFFLOAD_BUNDLE__\x02\0\0\0\0\0\0\0\
        \x98\0\0\0\0\0\0\0\x03\0\0\0\0\0\0\0\x24\0\0\0\0\0\0\0hip-amdgcn-amd-amdhsa--gfx906:xnack-\
        \x9b\0\0\0\0\0\0\0\x02\0\0\0\0\0\0\0\x24\0\0\0\0\0\0\0hip-amdgcn-amd-amdhsa--gfx906:xnack+\
        abccd.",
    );
}

// ROOM with one byte less.
pub(crate) fn no_room() {
    expect_bundle(
        FIRST,
        SECOND,
        &CARDS,
        b"abcd",
        &mut [b'.'; 156],
        12,
        0,
        0,
        &[b'.'; 156],
    );
}

// TABLE and ID.
pub(crate) fn no_ids() {
    expect_bundle(
        FIRST,
        PAST_IDS,
        &CARDS,
        b"abcd",
        &mut [b'.'; 1],
        4,
        1,
        0,
        b".",
    );
    expect_bundle(
        NO_ID,
        SECOND,
        &CARDS,
        b"abcd",
        &mut [b'.'; 1],
        5,
        0,
        0,
        b".",
    );
}

// RANGE and TWICE.
pub(crate) fn no_entries() {
    expect_bundle(
        FIRST,
        PAST_IMAGES,
        &CARDS,
        b"abcd",
        &mut [b'.'; 1],
        6,
        1,
        0,
        b".",
    );
    expect_bundle(FIRST, FIRST, &CARDS, b"abcd", &mut [b'.'; 1], 7, 1, 0, b".");
}

// TWICE across the spellings; MIXED.
pub(crate) fn no_bundle() {
    expect_bundle(HIP, HIPV4, &KINDS, b"", &mut [b'.'; 1], 7, 1, 0, b".");
    expect_bundle(
        FIRST,
        ANY_XNACK,
        &CARDS,
        b"abcd",
        &mut [b'.'; 1],
        8,
        1,
        0,
        b".",
    );
}
