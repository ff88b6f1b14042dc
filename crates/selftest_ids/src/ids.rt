// Entry IDs: canonical forms, and how two of them stand to each other.
ghost use Rattle.std.specs.Prelude.{◌≡◌, ◌++◌, length, drop, replicate};
ghost use Rattle.entry_id.specs.Canonical.{compatible_text, same_text, mixed_text};
ghost use Rattle.entry_id.specs.Rules.{form_in};
ghost use Rattle.entry_id.specs.declared.Reading.TheVariants.{General, Profile};

use entry_compare::Relation;
use entry_id::Reading;

// An ID of 255 bytes with an alternative name.
const LONG: [u8; 255] =
    *b"hip-amdgcn-vvvvvvvvvvvvvvvvvvvvvvvvvvvvvvvvvvvvvvvvvvvvvvvvvvvvvvvvvvvvvvvvvvvvvvvvvvvvvvvvvvvvv\
    vvvvvvvvvvvvvvvvvvvvvvvvvvvvvvvvvvvvvvvvvvvvvvvvvvvvvvvvvvvvvvvvvvvvvvvvvvvvvvvvvvvvvvvvvvvvvvvv\
    vvvvvvvvvvvvvvvvvvvvvvvvvvvvvvvvvvvvvvvvvvvvvvvvvv-amdhsa--fiji";

// The length of an ID's canonical form by a reading, and what making it leaves in `out`. Length 0: it is no ID, or its form has no room.
// 0 is the length of the definition `form_in` then, which has no bytes.
fn expect_form_by(reading: Reading, id: &[u8], out: &mut [u8], len: usize, after: &[u8])
    requires { (length (form_in reading (length out.old) id.now) ≡ len) × (form_in reading (length out.old) id.now ++ drop len out.old ≡ after.now) }
{
    let made = match profile_form::canonical_by(reading, id, out) {
        Some(form) => form.length,
        None => 0,
    };
    check::expect(made == len);
    check::expect(check::same(out, after));
}

// The same by the general reading.
// Most cases are by it, and need not name it.
fn expect_form(id: &[u8], out: &mut [u8], len: usize, after: &[u8])
    requires { (length (form_in General (length out.old) id.now) ≡ len) × (form_in General (length out.old) id.now ++ drop len out.old ≡ after.now) }
{
    expect_form_by(Reading::General, id, out, len, after);
}

pub(crate) fn host_forms() {
    // "`host-x86_64-unknown-linux-gnu` has canonical form `host-x86_64-unknown-linux-gnu-`, 30 bytes."
    expect_form(
        b"host-x86_64-unknown-linux-gnu",
        &mut [b'.'; 32],
        30,
        b"host-x86_64-unknown-linux-gnu-..",
    );
    expect_form(
        b"host-x86_64-unknown-linux-gnu",
        &mut [b'.'; 29],
        0,
        &[b'.'; 29],
    );
}

pub(crate) fn card_forms() {
    // "`hip-amdgcn-amd-amdhsa-gfx906:xnack+:sramecc-` becomes `hip-amdgcn-amd-amdhsa--gfx906:sramecc-:xnack+`, 45 bytes."
    expect_form(
        b"hip-amdgcn-amd-amdhsa-gfx906:xnack+:sramecc-",
        &mut [b'.'; 45],
        45,
        b"hip-amdgcn-amd-amdhsa--gfx906:sramecc-:xnack+",
    );
    expect_form(
        b"hip-a-b-c-sm_70:xy+:x-",
        &mut [b'.'; 23],
        23,
        b"hip-a-b-c--sm_70:x-:xy+",
    );
}

// Six fields, the last one empty; four fields.
pub(crate) fn field_forms() {
    expect_form(
        b"openmp-a-b-c-gnu-",
        &mut [b'.'; 20],
        17,
        b"openmp-a-b-c-gnu-...",
    );
    expect_form(b"hipv4-a-b-c", &mut [b'.'; 13], 13, b"hipv4-a-b-c--");
}

// A processor with hyphens, which starts with the fifth field or with the sixth.
pub(crate) fn processor_forms() {
    expect_form(
        b"hip-amdgcn-amd-amdhsa-gfx9-generic:xnack-",
        &mut [b'.'; 42],
        42,
        b"hip-amdgcn-amd-amdhsa--gfx9-generic:xnack-",
    );
    expect_form(
        b"hip-a-b-c-gnu-gfx9--x",
        &mut [b'.'; 22],
        21,
        b"hip-a-b-c-gnu-gfx9--x.",
    );
}

// A processor that begins or ends with a hyphen.
pub(crate) fn no_processors() {
    expect_form(b"hip-a-b-c-gfxenv-", &mut [b'.'; 32], 0, &[b'.'; 32]);
    expect_form(b"hip-a-b-c-gnu--x", &mut [b'.'; 32], 0, &[b'.'; 32]);
    expect_form(b"hip-a-b-c-gnu-x-", &mut [b'.'; 32], 0, &[b'.'; 32]);
}

// A feature without a processor; a name stated twice.
pub(crate) fn no_features() {
    // "`hip-a-b-c-d-:xnack+` is ID."
    expect_form(b"hip-a-b-c-d-:xnack+", &mut [b'.'; 32], 0, &[b'.'; 32]);
    expect_form(b"hip-a-b-c-sm_70:x+:x-", &mut [b'.'; 32], 0, &[b'.'; 32]);
}

// A kind that is none; no text.
pub(crate) fn no_kinds() {
    expect_form(b"cuda-a-b-c", &mut [b'.'; 13], 0, &[b'.'; 13]);
    expect_form(b"", &mut [b'.'; 1], 0, b".");
}

// The same by both readings, each in an output of 48 dots.
fn expect_forms(id: &[u8], len: usize, general: &[u8], profile_len: usize, profile: &[u8])
    requires id_len { (length (form_in General 48 id.now) ≡ len) × (form_in General 48 id.now ++ drop len (replicate 48 46) ≡ general.now) }
    requires id_len_2 { (length (form_in Profile 48 id.now) ≡ profile_len) × (form_in Profile 48 id.now ++ drop profile_len (replicate 48 46) ≡ profile.now) }
{
    expect_form_by(Reading::General, id, &mut [b'.'; 48], len, general);
    expect_form_by(Reading::Profile, id, &mut [b'.'; 48], profile_len, profile);
}

// "An alternative name means its primary": on the first row; of four bytes and of nine.
pub(crate) fn alternative_forms() {
    expect_forms(
        b"hipv4-amdgcn-amd-amdhsa--tahiti",
        31,
        b"hipv4-amdgcn-amd-amdhsa--tahiti.................",
        31,
        b"hipv4-amdgcn-amd-amdhsa--gfx600.................",
    );
    expect_forms(
        b"hip-amdgcn-amd-amdhsa--fiji",
        27,
        b"hip-amdgcn-amd-amdhsa--fiji.....................",
        29,
        b"hip-amdgcn-amd-amdhsa--gfx803...................",
    );
    expect_forms(
        b"openmp-amdgcn-amd-amdhsa--polaris10",
        35,
        b"openmp-amdgcn-amd-amdhsa--polaris10.............",
        32,
        b"openmp-amdgcn-amd-amdhsa--gfx803................",
    );
    // room for the ID as it is spelled, and a byte short for its form
    expect_form_by(
        Reading::Profile,
        b"hip-amdgcn-amd-amdhsa--fiji",
        &mut [b'.'; 28],
        0,
        &[b'.'; 28],
    );
}

// "An unknown processor or an unsupported feature (any other name too)": refused by the profile.
pub(crate) fn unknown_forms() {
    expect_forms(
        b"hip-amdgcn-amd-amdhsa-gfx999",
        29,
        b"hip-amdgcn-amd-amdhsa--gfx999...................",
        0,
        &[b'.'; 48],
    );
    expect_forms(
        b"hip-amdgcn-amd-amdhsa-gfx900:sramecc+",
        38,
        b"hip-amdgcn-amd-amdhsa--gfx900:sramecc+..........",
        0,
        &[b'.'; 48],
    );
    expect_forms(
        b"hip-amdgcn-amd-amdhsa-gfx90a:foo+",
        34,
        b"hip-amdgcn-amd-amdhsa--gfx90a:foo+..............",
        0,
        &[b'.'; 48],
    );
}

// Primary names: on the last row; with supported features.
pub(crate) fn primary_forms() {
    expect_forms(
        b"hip-amdgcn-amd-amdhsa-gfx12-generic",
        36,
        b"hip-amdgcn-amd-amdhsa--gfx12-generic............",
        36,
        b"hip-amdgcn-amd-amdhsa--gfx12-generic............",
    );
    expect_forms(
        b"hip-amdgcn-amd-amdhsa-gfx90a:xnack+:sramecc-",
        45,
        b"hip-amdgcn-amd-amdhsa--gfx90a:sramecc-:xnack+...",
        45,
        b"hip-amdgcn-amd-amdhsa--gfx90a:sramecc-:xnack+...",
    );
}

// "All other IDs read as before": another kind; another arch; an alternative name that is the environment.
pub(crate) fn other_forms() {
    expect_forms(
        b"host-amdgcn-amd-amdhsa--fiji",
        28,
        b"host-amdgcn-amd-amdhsa--fiji....................",
        28,
        b"host-amdgcn-amd-amdhsa--fiji....................",
    );
    expect_forms(
        b"hip-amdgcn1-amd-amdhsa--fiji",
        28,
        b"hip-amdgcn1-amd-amdhsa--fiji....................",
        28,
        b"hip-amdgcn1-amd-amdhsa--fiji....................",
    );
    expect_forms(
        b"hip-amdgcn-amd-amdhsa-tonga",
        28,
        b"hip-amdgcn-amd-amdhsa-tonga-....................",
        28,
        b"hip-amdgcn-amd-amdhsa-tonga-....................",
    );
}

// "the 256-byte limit is on the form written with the primary": a form of 256 bytes, and one of 257 that the general reading has in 255.
pub(crate) fn long_forms() {
    expect_form_by(
        Reading::Profile,
        b"hip-amdgcn-vvvvvvvvvvvvvvvvvvvvvvvvvvvvvvvvvvvvvvvvvvvvvvvvvvvvvvvvvvvvvvvvvvvvvvvvvvvvvvvvvvvvv\
        vvvvvvvvvvvvvvvvvvvvvvvvvvvvvvvvvvvvvvvvvvvvvvvvvvvvvvvvvvvvvvvvvvvvvvvvvvvvvvvvvvvvvvvvvvvvvvvv\
        vvvvvvvvvvvvvvvvvvvvvvvvvvvvvvvvvvvvvvvvvvvvvvvvv-amdhsa--fiji",
        &mut [b'.'; 256],
        256,
        b"hip-amdgcn-vvvvvvvvvvvvvvvvvvvvvvvvvvvvvvvvvvvvvvvvvvvvvvvvvvvvvvvvvvvvvvvvvvvvvvvvvvvvvvvvvvvvv\
        vvvvvvvvvvvvvvvvvvvvvvvvvvvvvvvvvvvvvvvvvvvvvvvvvvvvvvvvvvvvvvvvvvvvvvvvvvvvvvvvvvvvvvvvvvvvvvvv\
        vvvvvvvvvvvvvvvvvvvvvvvvvvvvvvvvvvvvvvvvvvvvvvvvv-amdhsa--gfx803",
    );
    expect_form(&LONG, &mut [b'.'; 255], 255, &LONG);
    expect_form_by(Reading::Profile, &LONG, &mut [b'.'; 257], 0, &[b'.'; 257]);
}

// How two canonical forms stand to each other: whether the first, as an entry, is compatible with the second; same meaning; mixed.
// Two truths are expected, since the definitions `same_text` and `mixed_text` tell them.
fn expect_standing(entry: &[u8], device: &[u8], compatible: bool, same: bool, mixed: bool)
    requires { (compatible_text entry.now device.now ≡ compatible) × (same_text entry.now device.now ≡ same) × (mixed_text entry.now device.now ≡ mixed) }
{
    check::expect(entry_compare::compatible(entry, device) == compatible);
    let (is_same, is_mixed) = match entry_compare::relation_of(entry, device) {
        Relation::Same => (true, false),
        Relation::Mixed => (false, true),
        Relation::Apart => (false, false),
    };
    check::expect((is_same == same) & (is_mixed == mixed));
}

pub(crate) fn standings() {
    // "Entry `gfx906`, device `gfx906:sramecc+:xnack-` (same kind and triple): compatible."
    expect_standing(
        b"hip-amdgcn-amd-amdhsa--gfx906",
        b"hip-amdgcn-amd-amdhsa--gfx906:sramecc+:xnack-",
        true,
        false,
        true,
    );
    // "Entry `gfx906:xnack-`, device `gfx906`: not compatible."
    expect_standing(
        b"hip-amdgcn-amd-amdhsa--gfx906:xnack-",
        b"hip-amdgcn-amd-amdhsa--gfx906",
        false,
        false,
        true,
    );
}

// Other signs; equal texts.
pub(crate) fn more_standings() {
    expect_standing(
        b"hip-amdgcn-amd-amdhsa--gfx906:xnack-",
        b"hip-amdgcn-amd-amdhsa--gfx906:xnack+",
        false,
        false,
        false,
    );
    expect_standing(
        b"host-x86_64-unknown-linux-gnu-",
        b"host-x86_64-unknown-linux-gnu-",
        true,
        true,
        false,
    );
}

// "hip and hipv4 are one thing": the same meaning; other signs; other feature names.
pub(crate) fn one_kind() {
    expect_standing(
        b"hip-a-b-c--gfx906",
        b"hipv4-a-b-c--gfx906",
        true,
        true,
        false,
    );
    expect_standing(
        b"hipv4-a-b-c--gfx906:xnack-",
        b"hip-a-b-c--gfx906:xnack+",
        false,
        false,
        false,
    );
    expect_standing(
        b"hipv4-a-b-c--gfx906",
        b"hip-a-b-c--gfx906:xnack+",
        true,
        false,
        true,
    );
}

// Other kinds are equal or not.
pub(crate) fn other_kinds() {
    expect_standing(
        b"hip-a-b-c--gfx906",
        b"openmp-a-b-c--gfx906",
        false,
        false,
        false,
    );
    expect_standing(
        b"hipv4-a-b-c--gfx906",
        b"host-a-b-c--gfx906",
        false,
        false,
        false,
    );
}
