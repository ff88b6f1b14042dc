// The pick for each of several device names.
// What is expected is given as numbers, since each case is an equation with a definition, which answers numbers.
ghost use Rattle.std.specs.Prelude.{◌≡◌, true, length};
ghost use Rattle.entry_id.specs.Rules.{id_rules};
ghost use Rattle.bundle.specs.Each.{pick_each, slots_after};

use crate::bundles::{HOST, SHARED_BYTE, TWO_CARDS, TWO_KINDS};
use bundle::PickedEach;

// The highest number.
const HIGHEST: u64 = 18446744073709551615;

// A slot as it is lent.
const LENT: [u64; 4] = [1, 2, 3, 4];

// The slot of a name that is no ID, or lies outside the buffer.
const QUERY: [u64; 4] = [9, 0, 0, 0];

// The slot of a name that no entry fits.
const NONE: [u64; 4] = [10, 0, 0, 0];

// The slot of a name that takes the entry of `HOST`.
const HOSTED: [u64; 4] = [0, 0, 86, 5];

// The slots of names that take the entries of `TWO_CARDS`, xnack- and xnack+.
const OFF: [u64; 4] = [0, 0, 155, 3];

const ON: [u64; 4] = [0, 1, 153, 2];

// A buffer that is the device of `HOST`.
const HOST_NAME: [u8; 29] = *b"host-x86_64-unknown-linux-gnu";

// Devices of `TWO_CARDS`: 35 bytes, 37 and 44. The first 28 bytes are a card without its feature.
const CARD_NAMES: [u8; 116] = *b"hip-amdgcn-amd-amdhsa-gfx906:xnack+\
    hipv4-amdgcn-amd-amdhsa-gfx906:xnack-\
    hip-amdgcn-amd-amdhsa-gfx906:sramecc-:xnack+";

// A device name of 256 bytes, and one byte more.
const LONG_NAME: [u8; 257] =
    *b"host-a-b-c--pppppppppppppppppppppppppppppppppppppppppppppppppppppppppppppppppppppppppppppppppppp\
    pppppppppppppppppppppppppppppppppppppppppppppppppppppppppppppppppppppppppppppppppppppppppppppppp\
    ppppppppppppppppppppppppppppppppppppppppppppppppppppppppppppppppp";

// What the call returns, and what it leaves in the slots.
fn expect_each(
    bundle: &[u8],
    buffer: &[u8],
    names: &[[u64; 2]],
    slots: &mut [[u64; 4]],
    number: usize,
    place: usize,
    written: usize,
    word: u64,
    taken: usize,
    after: &[[u64; 4]],
)
    requires { (pick_each id_rules bundle.now buffer.now names.now (length slots.old) ≡ record { number = number; place = place; slots = written; word = word; taken = taken }) × (slots_after id_rules bundle.now buffer.now names.now slots.old ≡ after.now) }
{
    let expected = PickedEach {
        number,
        place,
        slots: written,
        word,
        taken,
    };
    check::expect(
        PickedEach::from(bundle_reader::pick_each(bundle, buffer, names, slots)) == expected,
    );
    check::expect(*slots == *after);
}

// No name, and one: a slot too few, as many, and one more.
pub(crate) fn few_names() {
    expect_each(&TWO_CARDS, &CARD_NAMES, &[], &mut [], 0, 0, 0, 0, 0, &[]);
    expect_each(
        &TWO_CARDS,
        &CARD_NAMES,
        &[],
        &mut [LENT],
        0,
        0,
        0,
        0,
        0,
        &[LENT],
    );
    expect_each(
        &TWO_CARDS,
        &CARD_NAMES,
        &[[0, 35]],
        &mut [],
        12,
        0,
        0,
        0,
        0,
        &[],
    );
    expect_each(
        &TWO_CARDS,
        &CARD_NAMES,
        &[[0, 35]],
        &mut [LENT],
        0,
        0,
        1,
        2,
        1,
        &[ON],
    );
    expect_each(
        &TWO_CARDS,
        &CARD_NAMES,
        &[[0, 35]],
        &mut [LENT; 2],
        0,
        0,
        1,
        2,
        1,
        &[ON, LENT],
    );
}

// Sixteen names: a slot too few, as many, and one more.
pub(crate) fn sixteen_names() {
    expect_each(
        &HOST,
        &HOST_NAME,
        &[[0, 29]; 16],
        &mut [LENT; 15],
        12,
        0,
        0,
        0,
        0,
        &[LENT; 15],
    );
    expect_each(
        &HOST,
        &HOST_NAME,
        &[[0, 29]; 16],
        &mut [LENT; 16],
        0,
        0,
        16,
        1,
        1,
        &[HOSTED; 16],
    );
    let mut after = [HOSTED; 17];
    after[16] = LENT;
    expect_each(
        &HOST,
        &HOST_NAME,
        &[[0, 29]; 16],
        &mut [LENT; 17],
        0,
        0,
        16,
        1,
        1,
        &after,
    );
}

// RACK, with a slot for each name, and before ROOM; refusals of the check before both.
pub(crate) fn refused() {
    expect_each(
        &HOST,
        &HOST_NAME,
        &[[0, 29]; 17],
        &mut [LENT; 17],
        23,
        0,
        0,
        0,
        0,
        &[LENT; 17],
    );
    expect_each(
        &HOST,
        &HOST_NAME,
        &[[0, 29]; 17],
        &mut [LENT; 16],
        23,
        0,
        0,
        0,
        0,
        &[LENT; 16],
    );
    expect_each(
        &SHARED_BYTE,
        &HOST_NAME,
        &[[0, 29]; 17],
        &mut [LENT; 17],
        21,
        1,
        0,
        0,
        0,
        &[LENT; 17],
    );
    expect_each(
        b"",
        &HOST_NAME,
        &[[0, 29]; 2],
        &mut [LENT],
        2,
        0,
        0,
        0,
        0,
        &[LENT],
    );
}

// Parts of the buffer: the whole of it, first and last; a byte past it; empty ones; starts past it; ends past the highest number.
pub(crate) fn parts() {
    let mut after = [QUERY; 12];
    after[0] = HOSTED;
    after[11] = HOSTED;
    expect_each(
        &HOST,
        &HOST_NAME,
        &[
            [0, 29],
            [0, 30],
            [1, 29],
            [29, 1],
            [0, 0],
            [29, 0],
            [30, 0],
            [30, HIGHEST],
            [HIGHEST, 30],
            [1, HIGHEST],
            [HIGHEST, HIGHEST],
            [0, 29],
        ],
        &mut [LENT; 12],
        0,
        0,
        12,
        1,
        1,
        &after,
    );
}

// Names of 256 bytes and of 257: NONE and QUERY.
pub(crate) fn long_names() {
    expect_each(
        &HOST,
        &LONG_NAME,
        &[[0, 256], [0, 257]],
        &mut [LENT; 2],
        0,
        0,
        2,
        0,
        0,
        &[NONE, QUERY],
    );
}

// Both entries beside NONE and QUERY. The first name has the other spelling of its kind, the last ends with the buffer.
pub(crate) fn side_by_side() {
    expect_each(
        &TWO_CARDS,
        &CARD_NAMES,
        &[[35, 37], [0, 28], [0, 3], [72, 44]],
        &mut [LENT; 5],
        0,
        0,
        4,
        3,
        2,
        &[OFF, NONE, QUERY, ON, LENT],
    );
    // a byte past that
    expect_each(
        &TWO_CARDS,
        &CARD_NAMES,
        &[[35, 37], [72, 45]],
        &mut [LENT; 2],
        0,
        0,
        2,
        1,
        1,
        &[OFF, QUERY],
    );
}

// Two names that take one entry; either spelling of a kind takes the other.
pub(crate) fn one_entry() {
    expect_each(
        &TWO_CARDS,
        &CARD_NAMES,
        &[[72, 44], [0, 35]],
        &mut [LENT; 2],
        0,
        0,
        2,
        2,
        1,
        &[ON, ON],
    );
    expect_each(
        &TWO_KINDS,
        &CARD_NAMES,
        &[[0, 28], [35, 30]],
        &mut [LENT; 2],
        0,
        0,
        2,
        2,
        1,
        &[[0, 1, 143, 2]; 2],
    );
}
