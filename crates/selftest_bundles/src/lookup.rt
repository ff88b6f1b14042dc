// The lookup in two bundles.
ghost use Rattle.std.specs.Prelude.{◌≡◌};
ghost use Rattle.entry_id.specs.Rules.{id_rules};
ghost use Rattle.bundle.specs.Lookup.{numbers_of, lookup, lookup_image};

use crate::bundles::SHARED_BYTE;

// One entry, with an image of 3 bytes.
pub(crate) const PATCH: [u8; 68] = *b"__CLANG_OFFLOAD_BUNDLE__\x01\0\0\0\0\0\0\0\
    \x41\0\0\0\0\0\0\0\x03\0\0\0\0\0\0\0\x09\0\0\0\0\0\0\0hip-a-b-c\
    new";

// The same with an empty image.
pub(crate) const EMPTY_PATCH: [u8; 65] = *b"__CLANG_OFFLOAD_BUNDLE__\x01\0\0\0\0\0\0\0\
    \x41\0\0\0\0\0\0\0\0\0\0\0\0\0\0\0\x09\0\0\0\0\0\0\0hip-a-b-c";

// The entry in its other spelling, and one more.
pub(crate) const MAIN: [u8; 106] = *b"__CLANG_OFFLOAD_BUNDLE__\x02\0\0\0\0\0\0\0\
    \x65\0\0\0\0\0\0\0\x04\0\0\0\0\0\0\0\x0b\0\0\0\0\0\0\0hipv4-a-b-c\
    \x69\0\0\0\0\0\0\0\x01\0\0\0\0\0\0\0\x0a\0\0\0\0\0\0\0host-a-b-c\
    main1";

// The numbers, and the image itself.
fn expect_lookup<'a>(
    patch: &'a [u8],
    main: &'a [u8],
    device: &[u8],
    numbers: [u64; 5],
    image: &[u8],
)
    requires { (numbers_of (lookup id_rules patch.now main.now device.now) ≡ numbers) × (lookup_image id_rules patch.now main.now device.now ≡ image.now) }
{
    let mut given = [1u64, 2, 3, 4, 5];
    let part = bundle_lookup::lookup(patch, main, device, &mut given);
    check::expect(check::same(part, image));
    check::expect(given == numbers);
}

// The patch answers where it has an entry, also one with an empty image; the main bundle where it has none.
pub(crate) fn answers() {
    expect_lookup(&PATCH, &MAIN, b"hip-a-b-c", [0, 0, 1, 65, 3], b"new");
    expect_lookup(&PATCH, &MAIN, b"host-a-b-c", [0, 0, 2, 105, 1], b"1");
    expect_lookup(&EMPTY_PATCH, &MAIN, b"hip-a-b-c", [0, 0, 1, 65, 0], b"");
}

// QUERY and NONE name no bundle.
pub(crate) fn no_answer() {
    expect_lookup(&PATCH, &MAIN, b"hip", [9, 0, 0, 0, 0], b"");
    expect_lookup(&PATCH, &MAIN, b"openmp-a-b-c", [10, 0, 0, 0, 0], b"");
}

// What refuses the patch, then what refuses the main bundle, also where the patch has an image, and before QUERY.
pub(crate) fn refused() {
    expect_lookup(&SHARED_BYTE, b"", b"hip", [21, 1, 1, 0, 0], b"");
    expect_lookup(&PATCH, &SHARED_BYTE, b"hip-a-b-c", [21, 1, 2, 0, 0], b"");
    expect_lookup(&PATCH, b"", b"hip", [2, 0, 2, 0, 0], b"");
}
