// Bundles: the check, the pick and the normal form.
// What is expected is given as numbers, since each case is an equation with a definition, which answers numbers.
ghost use Rattle.std.specs.Prelude.{◌≡◌, length};
ghost use Rattle.entry_id.specs.Rules.{id_rules, rules_of};
ghost use Rattle.entry_id.specs.declared.Reading.TheVariants.{General};
ghost use Rattle.bundle.specs.Check.{check};
ghost use Rattle.bundle.specs.Pick.{pick};
ghost use Rattle.bundle.specs.EntryAt.{entry_at};
ghost use Rattle.bundle.specs.Normal.{normalise, normalised};

use bundle::{Checked, Located, Picked, Written};
use entry_id::Reading;

// "Magic and eight zero bytes"
const NO_ENTRIES: [u8; 32] = *b"__CLANG_OFFLOAD_BUNDLE__\0\0\0\0\0\0\0\0";

// An entry of five fields, with an image of 5 bytes.
const HOST_SPELLED: [u8; 90] = *b"__CLANG_OFFLOAD_BUNDLE__\x01\0\0\0\0\0\0\0\
    \x55\0\0\0\0\0\0\0\x05\0\0\0\0\0\0\0\x1d\0\0\0\0\0\0\0host-x86_64-unknown-linux-gnu\
    image";

// The same with its ID in canonical form: "magic; count 1; 86; 5; 30; the ID; the five bytes".
pub(crate) const HOST: [u8; 91] = *b"__CLANG_OFFLOAD_BUNDLE__\x01\0\0\0\0\0\0\0\
    \x56\0\0\0\0\0\0\0\x05\0\0\0\0\0\0\0\x1e\0\0\0\0\0\0\0host-x86_64-unknown-linux-gnu-\
    image";

// samples/bundles/host-only.bundle, by LLVM.
const HOST_ONLY: [u8; 86] = *b"__CLANG_OFFLOAD_BUNDLE__\x01\0\0\0\0\0\0\0\
    \x56\0\0\0\0\0\0\0\0\0\0\0\0\0\0\0\x1e\0\0\0\0\0\0\0host-x86_64-unknown-linux-gnu-";

// Two entries in falling order; bytes of no image after the table; images in falling order.
pub(crate) const TWO_CARDS: [u8; 158] = *b"__CLANG_OFFLOAD_BUNDLE__\x02\0\0\0\0\0\0\0\
    \x9b\0\0\0\0\0\0\0\x03\0\0\0\0\0\0\0\x23\0\0\0\0\0\0\0hip-amdgcn-amd-amdhsa-gfx906:xnack-\
    \x99\0\0\0\0\0\0\0\x02\0\0\0\0\0\0\0\x23\0\0\0\0\0\0\0hip-amdgcn-amd-amdhsa-gfx906:xnack+\
    ...abcde";

// Its normal form.
const TWO_CARDS_NORMAL: [u8; 157] = *b"__CLANG_OFFLOAD_BUNDLE__\x02\0\0\0\0\0\0\0\
    \x98\0\0\0\0\0\0\0\x02\0\0\0\0\0\0\0\x24\0\0\0\0\0\0\0hip-amdgcn-amd-amdhsa--gfx906:xnack+\
    \x9a\0\0\0\0\0\0\0\x03\0\0\0\0\0\0\0\x24\0\0\0\0\0\0\0hip-amdgcn-amd-amdhsa--gfx906:xnack-\
    abcde";

// Two images that share a byte.
pub(crate) const SHARED_BYTE: [u8; 107] = *b"__CLANG_OFFLOAD_BUNDLE__\x02\0\0\0\0\0\0\0\
    \x63\0\0\0\0\0\0\0\x04\0\0\0\0\0\0\0\x0a\0\0\0\0\0\0\0host-a-b-c\
    \x66\0\0\0\0\0\0\0\x04\0\0\0\0\0\0\0\x09\0\0\0\0\0\0\0hip-a-b-c\
    8 bytes.";

// Two kinds for one target, in falling order.
pub(crate) const TWO_KINDS: [u8; 145] = *b"__CLANG_OFFLOAD_BUNDLE__\x02\0\0\0\0\0\0\0\
    \x8d\0\0\0\0\0\0\0\x02\0\0\0\0\0\0\0\x1f\0\0\0\0\0\0\0openmp-amdgcn-amd-amdhsa-gfx906\
    \x8f\0\0\0\0\0\0\0\x02\0\0\0\0\0\0\0\x1e\0\0\0\0\0\0\0hipv4-amdgcn-amd-amdhsa-gfx906\
    abcd";

// One card under both of its names.
const CARD_TWICE: [u8; 135] = *b"__CLANG_OFFLOAD_BUNDLE__\x02\0\0\0\0\0\0\0\
    \x87\0\0\0\0\0\0\0\0\0\0\0\0\0\0\0\x1b\0\0\0\0\0\0\0hip-amdgcn-amd-amdhsa--fiji\
    \x87\0\0\0\0\0\0\0\0\0\0\0\0\0\0\0\x1c\0\0\0\0\0\0\0hip-amdgcn-amd-amdhsa-gfx803";

// Another card under both of its names, the second with a feature.
const CARD_MIXED: [u8; 145] = *b"__CLANG_OFFLOAD_BUNDLE__\x02\0\0\0\0\0\0\0\
    \x91\0\0\0\0\0\0\0\0\0\0\0\0\0\0\0\x1e\0\0\0\0\0\0\0hip-amdgcn-amd-amdhsa--carrizo\
    \x91\0\0\0\0\0\0\0\0\0\0\0\0\0\0\0\x23\0\0\0\0\0\0\0hip-amdgcn-amd-amdhsa-gfx801:xnack+";

// A known processor and an unknown one.
const UNKNOWN_CARD: [u8; 136] = *b"__CLANG_OFFLOAD_BUNDLE__\x02\0\0\0\0\0\0\0\
    \x88\0\0\0\0\0\0\0\0\0\0\0\0\0\0\0\x1c\0\0\0\0\0\0\0hip-amdgcn-amd-amdhsa-gfx803\
    \x88\0\0\0\0\0\0\0\0\0\0\0\0\0\0\0\x1c\0\0\0\0\0\0\0hip-amdgcn-amd-amdhsa-gfx999";

// A card under an alternative name, and another under its primary.
const TWO_NAMES: [u8; 142] = *b"__CLANG_OFFLOAD_BUNDLE__\x02\0\0\0\0\0\0\0\
    \x89\0\0\0\0\0\0\0\x02\0\0\0\0\0\0\0\x1d\0\0\0\0\0\0\0hip-amdgcn-amd-amdhsa--tahiti\
    \x8b\0\0\0\0\0\0\0\x03\0\0\0\0\0\0\0\x1c\0\0\0\0\0\0\0hip-amdgcn-amd-amdhsa-gfx803\
    abcde";

fn expect_check_by(reading: Reading, bundle: &[u8], number: usize, place: usize, count: usize)
    requires { check (rules_of reading) bundle.now ≡ record { number = number; place = place; count = count } }
{
    let expected = Checked {
        number,
        place,
        count,
    };
    check::expect(Checked::from(bundle_reader::check_by(reading, bundle)) == expected);
}

// The check by the general reading.
// Most cases are by it, and need not name it. The same holds of the pick and of the normal form.
fn expect_check(bundle: &[u8], number: usize, place: usize, count: usize)
    requires { check (rules_of General) bundle.now ≡ record { number = number; place = place; count = count } }
{
    expect_check_by(Reading::General, bundle, number, place, count);
}

// MAGIC and COUNT.
pub(crate) fn heads() {
    // "Empty input: MAGIC as a bundle"
    expect_check(b"", 2, 0, 0);
    // magic alone
    expect_check(b"__CLANG_OFFLOAD_BUNDLE__", 3, 0, 0);
    // "65 is COUNT."
    expect_check(b"__CLANG_OFFLOAD_BUNDLE__\x41\0\0\0\0\0\0\0", 3, 0, 0);
    // "Magic and eight zero bytes: accepted, no entries"
    expect_check(&NO_ENTRIES, 0, 0, 0);
}

// TABLE and ID.
pub(crate) fn tables() {
    // "An ID length of 2^64 - 1 is TABLE."
    expect_check(
        b"__CLANG_OFFLOAD_BUNDLE__\x01\0\0\0\0\0\0\0\
        \x38\0\0\0\0\0\0\0\0\0\0\0\0\0\0\0\xff\xff\xff\xff\xff\xff\xff\xffhost-x86_64-unknown-linux-gnu-",
        4,
        0,
        0,
    );
    // the second row is cut off
    expect_check(
        b"__CLANG_OFFLOAD_BUNDLE__\x02\0\0\0\0\0\0\0\
        \x56\0\0\0\0\0\0\0\0\0\0\0\0\0\0\0\x1e\0\0\0\0\0\0\0host-x86_64-unknown-linux-gnu-",
        4,
        1,
        0,
    );
    // "`hip-a-b-c-d-:xnack+` is ID."
    expect_check(
        b"__CLANG_OFFLOAD_BUNDLE__\x01\0\0\0\0\0\0\0\
        \x4b\0\0\0\0\0\0\0\0\0\0\0\0\0\0\0\x13\0\0\0\0\0\0\0hip-a-b-c-d-:xnack+",
        5,
        0,
        0,
    );
    expect_check(&HOST_SPELLED, 0, 0, 1);
}

// RANGE.
pub(crate) fn ranges() {
    // "Offset equal to the length with size 0: accepted."
    expect_check(&HOST_ONLY, 0, 0, 1);
    // "Size 1 there: RANGE."
    expect_check(
        b"__CLANG_OFFLOAD_BUNDLE__\x01\0\0\0\0\0\0\0\
        \x56\0\0\0\0\0\0\0\x01\0\0\0\0\0\0\0\x1e\0\0\0\0\0\0\0host-x86_64-unknown-linux-gnu-",
        6,
        0,
        0,
    );
    // an image that would end past the highest number
    expect_check(
        b"__CLANG_OFFLOAD_BUNDLE__\x01\0\0\0\0\0\0\0\
        \x56\0\0\0\0\0\0\0\xff\xff\xff\xff\xff\xff\xff\xff\x1e\0\0\0\0\0\0\0host-x86_64-unknown-linux-gnu-",
        6,
        0,
        0,
    );
    expect_check(&HOST, 0, 0, 1);
}

// Images that share no byte, or are the same span.
pub(crate) fn apart() {
    // falling, and touching each other
    expect_check(
        b"__CLANG_OFFLOAD_BUNDLE__\x03\0\0\0\0\0\0\0\
        \x8d\0\0\0\0\0\0\0\x02\0\0\0\0\0\0\0\x0a\0\0\0\0\0\0\0host-a-b-c\
        \x8a\0\0\0\0\0\0\0\x03\0\0\0\0\0\0\0\x09\0\0\0\0\0\0\0hip-a-b-c\
        \x87\0\0\0\0\0\0\0\x03\0\0\0\0\0\0\0\x0c\0\0\0\0\0\0\0openmp-a-b-c\
        8 bytes.",
        0,
        0,
        3,
    );
    // one between two others
    expect_check(
        b"__CLANG_OFFLOAD_BUNDLE__\x03\0\0\0\0\0\0\0\
        \x87\0\0\0\0\0\0\0\x02\0\0\0\0\0\0\0\x0a\0\0\0\0\0\0\0host-a-b-c\
        \x8d\0\0\0\0\0\0\0\x02\0\0\0\0\0\0\0\x09\0\0\0\0\0\0\0hip-a-b-c\
        \x89\0\0\0\0\0\0\0\x04\0\0\0\0\0\0\0\x0c\0\0\0\0\0\0\0openmp-a-b-c\
        8 bytes.",
        0,
        0,
        3,
    );
    // the same span twice
    expect_check(
        b"__CLANG_OFFLOAD_BUNDLE__\x03\0\0\0\0\0\0\0\
        \x87\0\0\0\0\0\0\0\x04\0\0\0\0\0\0\0\x0a\0\0\0\0\0\0\0host-a-b-c\
        \x8b\0\0\0\0\0\0\0\x04\0\0\0\0\0\0\0\x09\0\0\0\0\0\0\0hip-a-b-c\
        \x87\0\0\0\0\0\0\0\x04\0\0\0\0\0\0\0\x0c\0\0\0\0\0\0\0openmp-a-b-c\
        8 bytes.",
        0,
        0,
        3,
    );
    // empty images inside another
    expect_check(
        b"__CLANG_OFFLOAD_BUNDLE__\x03\0\0\0\0\0\0\0\
        \x87\0\0\0\0\0\0\0\x08\0\0\0\0\0\0\0\x0a\0\0\0\0\0\0\0host-a-b-c\
        \x8b\0\0\0\0\0\0\0\0\0\0\0\0\0\0\0\x09\0\0\0\0\0\0\0hip-a-b-c\
        \x8b\0\0\0\0\0\0\0\0\0\0\0\0\0\0\0\x0c\0\0\0\0\0\0\0openmp-a-b-c\
        8 bytes.",
        0,
        0,
        3,
    );
}

// OVERLAP: one byte of an earlier image, at either end of it.
pub(crate) fn overlaps() {
    // the last byte of the first
    expect_check(
        b"__CLANG_OFFLOAD_BUNDLE__\x03\0\0\0\0\0\0\0\
        \x87\0\0\0\0\0\0\0\x02\0\0\0\0\0\0\0\x0a\0\0\0\0\0\0\0host-a-b-c\
        \x8d\0\0\0\0\0\0\0\x02\0\0\0\0\0\0\0\x09\0\0\0\0\0\0\0hip-a-b-c\
        \x88\0\0\0\0\0\0\0\x03\0\0\0\0\0\0\0\x0c\0\0\0\0\0\0\0openmp-a-b-c\
        8 bytes.",
        21,
        2,
        0,
    );
    // the first byte of the second
    expect_check(
        b"__CLANG_OFFLOAD_BUNDLE__\x03\0\0\0\0\0\0\0\
        \x87\0\0\0\0\0\0\0\x02\0\0\0\0\0\0\0\x0a\0\0\0\0\0\0\0host-a-b-c\
        \x8d\0\0\0\0\0\0\0\x02\0\0\0\0\0\0\0\x09\0\0\0\0\0\0\0hip-a-b-c\
        \x8a\0\0\0\0\0\0\0\x04\0\0\0\0\0\0\0\x0c\0\0\0\0\0\0\0openmp-a-b-c\
        8 bytes.",
        21,
        2,
        0,
    );
}

// OVERLAP: inside and around; RANGE before it and TWICE behind it.
pub(crate) fn overlaps_in_turn() {
    // inside
    expect_check(
        b"__CLANG_OFFLOAD_BUNDLE__\x02\0\0\0\0\0\0\0\
        \x63\0\0\0\0\0\0\0\x08\0\0\0\0\0\0\0\x0a\0\0\0\0\0\0\0host-a-b-c\
        \x65\0\0\0\0\0\0\0\x03\0\0\0\0\0\0\0\x09\0\0\0\0\0\0\0hip-a-b-c\
        8 bytes.",
        21,
        1,
        0,
    );
    // around, and a third that overlaps too
    expect_check(
        b"__CLANG_OFFLOAD_BUNDLE__\x03\0\0\0\0\0\0\0\
        \x89\0\0\0\0\0\0\0\x03\0\0\0\0\0\0\0\x0a\0\0\0\0\0\0\0host-a-b-c\
        \x87\0\0\0\0\0\0\0\x08\0\0\0\0\0\0\0\x09\0\0\0\0\0\0\0hip-a-b-c\
        \x88\0\0\0\0\0\0\0\x01\0\0\0\0\0\0\0\x0c\0\0\0\0\0\0\0openmp-a-b-c\
        8 bytes.",
        21,
        1,
        0,
    );
    // a later image is outside
    expect_check(
        b"__CLANG_OFFLOAD_BUNDLE__\x03\0\0\0\0\0\0\0\
        \x87\0\0\0\0\0\0\0\x08\0\0\0\0\0\0\0\x0a\0\0\0\0\0\0\0host-a-b-c\
        \x89\0\0\0\0\0\0\0\x03\0\0\0\0\0\0\0\x09\0\0\0\0\0\0\0hip-a-b-c\
        \x88\0\0\0\0\0\0\0\x08\0\0\0\0\0\0\0\x0c\0\0\0\0\0\0\0openmp-a-b-c\
        8 bytes.",
        6,
        2,
        0,
    );
    // an entry that stands twice
    expect_check(
        b"__CLANG_OFFLOAD_BUNDLE__\x02\0\0\0\0\0\0\0\
        \x62\0\0\0\0\0\0\0\x04\0\0\0\0\0\0\0\x09\0\0\0\0\0\0\0hip-a-b-c\
        \x65\0\0\0\0\0\0\0\x04\0\0\0\0\0\0\0\x09\0\0\0\0\0\0\0hip-a-b-c\
        8 bytes.",
        21,
        1,
        0,
    );
}

// TWICE and MIXED.
pub(crate) fn meanings() {
    // "The two `gfx906` spellings of the fourth piece together: TWICE."
    expect_check(
        b"__CLANG_OFFLOAD_BUNDLE__\x02\0\0\0\0\0\0\0\
        \xa9\0\0\0\0\0\0\0\0\0\0\0\0\0\0\0\x2c\0\0\0\0\0\0\0hip-amdgcn-amd-amdhsa-gfx906:xnack+:sramecc-\
        \xa9\0\0\0\0\0\0\0\0\0\0\0\0\0\0\0\x2d\0\0\0\0\0\0\0hip-amdgcn-amd-amdhsa--gfx906:sramecc-:xnack+",
        7,
        1,
        0,
    );
    // "Entries `gfx906` and `gfx906:xnack+` together: MIXED at the second."
    expect_check(
        b"__CLANG_OFFLOAD_BUNDLE__\x02\0\0\0\0\0\0\0\
        \x8f\0\0\0\0\0\0\0\0\0\0\0\0\0\0\0\x1c\0\0\0\0\0\0\0hip-amdgcn-amd-amdhsa-gfx906\
        \x8f\0\0\0\0\0\0\0\0\0\0\0\0\0\0\0\x23\0\0\0\0\0\0\0hip-amdgcn-amd-amdhsa-gfx906:xnack+",
        8,
        1,
        0,
    );
    expect_check(&TWO_CARDS, 0, 0, 2);
    expect_check(&TWO_CARDS_NORMAL, 0, 0, 2);
}

// hip and hipv4 are one kind: TWICE and MIXED across the two; openmp is another.
pub(crate) fn kinds() {
    expect_check(
        b"__CLANG_OFFLOAD_BUNDLE__\x02\0\0\0\0\0\0\0\
        \x8a\0\0\0\0\0\0\0\0\0\0\0\0\0\0\0\x1c\0\0\0\0\0\0\0hip-amdgcn-amd-amdhsa-gfx906\
        \x8a\0\0\0\0\0\0\0\0\0\0\0\0\0\0\0\x1e\0\0\0\0\0\0\0hipv4-amdgcn-amd-amdhsa-gfx906",
        7,
        1,
        0,
    );
    expect_check(
        b"__CLANG_OFFLOAD_BUNDLE__\x02\0\0\0\0\0\0\0\
        \x91\0\0\0\0\0\0\0\0\0\0\0\0\0\0\0\x1e\0\0\0\0\0\0\0hipv4-amdgcn-amd-amdhsa-gfx906\
        \x91\0\0\0\0\0\0\0\0\0\0\0\0\0\0\0\x23\0\0\0\0\0\0\0hip-amdgcn-amd-amdhsa-gfx906:xnack+",
        8,
        1,
        0,
    );
    expect_check(&TWO_KINDS, 0, 0, 2);
}

// TWICE, MIXED and ID by the profile, of bundles that the general reading accepts.
pub(crate) fn cards() {
    expect_check_by(Reading::Profile, &CARD_TWICE, 7, 1, 0);
    expect_check(&CARD_TWICE, 0, 0, 2);
    expect_check_by(Reading::Profile, &CARD_MIXED, 8, 1, 0);
    expect_check(&CARD_MIXED, 0, 0, 2);
    expect_check_by(Reading::Profile, &UNKNOWN_CARD, 5, 1, 0);
    expect_check(&UNKNOWN_CARD, 0, 0, 2);
}

fn expect_pick_by(
    reading: Reading,
    bundle: &[u8],
    device: &[u8],
    number: usize,
    place: usize,
    index: usize,
    position: u64,
    size: u64,
)
    requires { pick (rules_of reading) bundle.now device.now ≡ record { number = number; place = place; index = index; position = position; size = size } }
{
    let expected = Picked {
        number,
        place,
        index,
        position,
        size,
    };
    check::expect(Picked::from(bundle_reader::pick_by(reading, bundle, device)) == expected);
}

// The pick by the general reading.
fn expect_pick(
    bundle: &[u8],
    device: &[u8],
    number: usize,
    place: usize,
    index: usize,
    position: u64,
    size: u64,
)
    requires { pick (rules_of General) bundle.now device.now ≡ record { number = number; place = place; index = index; position = position; size = size } }
{
    expect_pick_by(
        Reading::General,
        bundle,
        device,
        number,
        place,
        index,
        position,
        size,
    );
}

// Picked, from a bundle and from its normal form.
pub(crate) fn picks() {
    expect_pick(
        &TWO_CARDS,
        b"hip-amdgcn-amd-amdhsa-gfx906:sramecc-:xnack+",
        0,
        0,
        1,
        153,
        2,
    );
    expect_pick(
        &TWO_CARDS_NORMAL,
        b"hip-amdgcn-amd-amdhsa-gfx906:sramecc-:xnack+",
        0,
        0,
        0,
        152,
        2,
    );
}

// Picked: another sign, and an empty image.
pub(crate) fn more_picks() {
    expect_pick(
        &TWO_CARDS,
        b"hip-amdgcn-amd-amdhsa--gfx906:xnack-",
        0,
        0,
        0,
        155,
        3,
    );
    expect_pick(&HOST_ONLY, b"host-x86_64-unknown-linux-gnu", 0, 0, 0, 86, 0);
}

// A refusal of the check, and QUERY.
pub(crate) fn not_asked() {
    expect_pick(b"", b"", 2, 0, 0, 0, 0);
    expect_pick(&SHARED_BYTE, b"host-a-b-c", 21, 1, 0, 0, 0);
    expect_pick(&HOST, b"", 9, 0, 0, 0, 0);
    expect_pick(&HOST, b"hip-a-b-c-d-:xnack+", 9, 0, 0, 0, 0);
}

// NONE.
pub(crate) fn not_found() {
    expect_pick(
        &NO_ENTRIES,
        b"host-x86_64-unknown-linux-gnu",
        10,
        0,
        0,
        0,
        0,
    );
    // a feature that the device does not state fits no sign
    expect_pick(&TWO_CARDS, b"hip-amdgcn-amd-amdhsa-gfx906", 10, 0, 0, 0, 0);
}

// Either spelling of a kind picks the other; another kind picks nothing.
pub(crate) fn kinds_picked() {
    expect_pick(
        &TWO_CARDS,
        b"hipv4-amdgcn-amd-amdhsa-gfx906:xnack-",
        0,
        0,
        0,
        155,
        3,
    );
    expect_pick(&TWO_KINDS, b"hip-amdgcn-amd-amdhsa-gfx906", 0, 0, 1, 143, 2);
    expect_pick(
        &TWO_CARDS,
        b"openmp-amdgcn-amd-amdhsa-gfx906:xnack-",
        10,
        0,
        0,
        0,
        0,
    );
}

// Picked by the profile under another name of the card; NONE by the general reading.
pub(crate) fn cards_picked() {
    expect_pick_by(
        Reading::Profile,
        &TWO_NAMES,
        b"hip-amdgcn-amd-amdhsa--fiji",
        0,
        0,
        1,
        139,
        3,
    );
    expect_pick(&TWO_NAMES, b"hip-amdgcn-amd-amdhsa--fiji", 10, 0, 0, 0, 0);
    expect_pick_by(
        Reading::Profile,
        &TWO_NAMES,
        b"hip-amdgcn-amd-amdhsa-gfx600",
        0,
        0,
        0,
        137,
        2,
    );
    expect_pick(&TWO_NAMES, b"hip-amdgcn-amd-amdhsa-gfx600", 10, 0, 0, 0, 0);
}

// An unknown processor in a device name: QUERY by the profile, NONE by the general reading.
pub(crate) fn cards_not_asked() {
    expect_pick_by(
        Reading::Profile,
        &TWO_NAMES,
        b"hip-amdgcn-amd-amdhsa-gfx999",
        9,
        0,
        0,
        0,
        0,
    );
    expect_pick(&TWO_NAMES, b"hip-amdgcn-amd-amdhsa-gfx999", 10, 0, 0, 0, 0);
}

fn expect_entry(
    bundle: &[u8],
    index: usize,
    number: usize,
    place: usize,
    position: u64,
    size: u64,
    id_position: usize,
    id_length: usize,
)
    requires { entry_at id_rules bundle.now index ≡ record { number = number; place = place; position = position; size = size; id_position = id_position; id_length = id_length } }
{
    let expected = Located {
        number,
        place,
        position,
        size,
        id_position,
        id_length,
    };
    check::expect(Located::from(bundle_reader::entry(bundle, index)) == expected);
}

// Entries by their index; past the last, NONE.
pub(crate) fn entries() {
    expect_entry(&TWO_CARDS, 1, 0, 0, 153, 2, 115, 35);
    expect_entry(&TWO_CARDS, 2, 10, 0, 0, 0, 0, 0);
    expect_entry(&HOST_SPELLED, 18446744073709551615, 10, 0, 0, 0, 0, 0);
}

// Refusals of the check.
pub(crate) fn no_entries() {
    expect_entry(&SHARED_BYTE, 0, 21, 1, 0, 0, 0, 0);
    expect_entry(b"", 0, 2, 0, 0, 0, 0, 0);
    expect_entry(b"__CLANG_OFFLOAD_BUNDLE__", 0, 3, 0, 0, 0, 0, 0);
}

// What normalising into `out` returns, and what it leaves there.
fn expect_normalise_by(
    reading: Reading,
    bundle: &[u8],
    out: &mut [u8],
    number: usize,
    place: usize,
    written: usize,
    after: &[u8],
)
    requires { (normalise (rules_of reading) bundle.now (length out.old) ≡ record { number = number; place = place; length = written }) × (normalised (rules_of reading) bundle.now out.old ≡ after.now) }
{
    let expected = Written {
        number,
        place,
        length: written,
    };
    check::expect(Written::from(normal_form::normalise_by(reading, bundle, out)) == expected);
    check::expect(check::same(out, after));
}

// The same by the general reading.
fn expect_normalise(
    bundle: &[u8],
    out: &mut [u8],
    number: usize,
    place: usize,
    written: usize,
    after: &[u8],
)
    requires { (normalise (rules_of General) bundle.now (length out.old) ≡ record { number = number; place = place; length = written }) × (normalised (rules_of General) bundle.now out.old ≡ after.now) }
{
    expect_normalise_by(Reading::General, bundle, out, number, place, written, after);
}

// A bundle that is its own normal form; a refusal of the check.
pub(crate) fn no_entries_normal() {
    // "its own normal form, 32 bytes"
    expect_normalise(&NO_ENTRIES, &mut [b'.'; 32], 0, 0, 32, &NO_ENTRIES);
    // refused by the check
    expect_normalise(b"", &mut [b'.'; 1], 2, 0, 0, b".");
    expect_normalise(&SHARED_BYTE, &mut [b'.'; 1], 21, 1, 0, b".");
}

// Room that is just enough, and ROOM with one byte less.
pub(crate) fn host_normal() {
    // "table end 86 and normal length 91"
    expect_normalise(&HOST_SPELLED, &mut [b'.'; 91], 0, 0, 91, &HOST);
    expect_normalise(&HOST_SPELLED, &mut [b'.'; 90], 12, 0, 0, &[b'.'; 90]);
}

// A normal form normalised again.
pub(crate) fn normal_again() {
    expect_normalise(&HOST, &mut [b'.'; 91], 0, 0, 91, &HOST);
    expect_normalise(&HOST_ONLY, &mut [b'.'; 86], 0, 0, 86, &HOST_ONLY);
}

// Entries sorted and packed, with room that is just enough, and with a byte beyond.
pub(crate) fn cards_normal() {
    expect_normalise(&TWO_CARDS, &mut [b'.'; 157], 0, 0, 157, &TWO_CARDS_NORMAL);
    expect_normalise(
        &TWO_CARDS,
        &mut [b'.'; 158],
        0,
        0,
        157,
        b"__CLANG_OFFLOAD_BUNDLE__\x02\0\0\0\0\0\0\0\
        \x98\0\0\0\0\0\0\0\x02\0\0\0\0\0\0\0\x24\0\0\0\0\0\0\0hip-amdgcn-amd-amdhsa--gfx906:xnack+\
        \x9a\0\0\0\0\0\0\0\x03\0\0\0\0\0\0\0\x24\0\0\0\0\0\0\0hip-amdgcn-amd-amdhsa--gfx906:xnack-\
        abcde.",
    );
}

// ROOM with one byte less, and the normal form normalised again.
pub(crate) fn cards_again() {
    expect_normalise(&TWO_CARDS, &mut [b'.'; 156], 12, 0, 0, &[b'.'; 156]);
    expect_normalise(
        &TWO_CARDS_NORMAL,
        &mut [b'.'; 157],
        0,
        0,
        157,
        &TWO_CARDS_NORMAL,
    );
}

// The kind stays as it is spelled.
pub(crate) fn kinds_normal() {
    expect_normalise(
        &TWO_KINDS,
        &mut [b'.'; 147],
        0,
        0,
        147,
        b"__CLANG_OFFLOAD_BUNDLE__\x02\0\0\0\0\0\0\0\
        \x8f\0\0\0\0\0\0\0\x02\0\0\0\0\0\0\0\x1f\0\0\0\0\0\0\0hipv4-amdgcn-amd-amdhsa--gfx906\
        \x91\0\0\0\0\0\0\0\x02\0\0\0\0\0\0\0\x20\0\0\0\0\0\0\0openmp-amdgcn-amd-amdhsa--gfx906\
        cdab",
    );
}

// The profile's normal form writes the primary names, and goes by their order.
pub(crate) fn names_normal() {
    expect_normalise_by(
        Reading::Profile,
        &TWO_NAMES,
        &mut [b'.'; 143],
        0,
        0,
        143,
        b"__CLANG_OFFLOAD_BUNDLE__\x02\0\0\0\0\0\0\0\
        \x8a\0\0\0\0\0\0\0\x02\0\0\0\0\0\0\0\x1d\0\0\0\0\0\0\0hip-amdgcn-amd-amdhsa--gfx600\
        \x8c\0\0\0\0\0\0\0\x03\0\0\0\0\0\0\0\x1d\0\0\0\0\0\0\0hip-amdgcn-amd-amdhsa--gfx803\
        abcde",
    );
    expect_normalise(
        &TWO_NAMES,
        &mut [b'.'; 143],
        0,
        0,
        143,
        b"__CLANG_OFFLOAD_BUNDLE__\x02\0\0\0\0\0\0\0\
        \x8a\0\0\0\0\0\0\0\x03\0\0\0\0\0\0\0\x1d\0\0\0\0\0\0\0hip-amdgcn-amd-amdhsa--gfx803\
        \x8d\0\0\0\0\0\0\0\x02\0\0\0\0\0\0\0\x1d\0\0\0\0\0\0\0hip-amdgcn-amd-amdhsa--tahiti\
        cdeab",
    );
    // refused by the check
    expect_normalise_by(
        Reading::Profile,
        &CARD_TWICE,
        &mut [b'.'; 138],
        7,
        1,
        0,
        &[b'.'; 138],
    );
}
