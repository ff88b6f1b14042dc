// The report on two bundles.
ghost use Rattle.std.specs.Prelude.{◌≡◌, length};
ghost use Rattle.entry_id.specs.Rules.{id_rules};
ghost use Rattle.bundle.specs.Differences.{report, reported};

use crate::bundles::SHARED_BYTE;
use crate::lookup::{EMPTY_PATCH, MAIN, PATCH};

// The length, and the whole output afterwards.
fn expect_report(left: &[u8], right: &[u8], out: &mut [u8], len: usize, after: &[u8])
    requires { (length (report id_rules left.now right.now) ≡ len) × (reported id_rules left.now right.now out.old ≡ after.now) }
{
    let given = bundle_compare::compare(left, right, out);
    check::expect(given == len);
    check::expect(check::same(out, after));
}

// Entries that only the left has, that only the right has, and that both have with other images; what lies beyond the report stays.
pub(crate) fn differences() {
    let mut out = [7u8; 60];
    expect_report(
        &PATCH,
        &MAIN,
        &mut out,
        59,
        b"L hip-a-b-c--\nR hipv4-a-b-c--\nR host-a-b-c--\ndifferences 3\n\x07",
    );
    let mut one = [7u8; 30];
    expect_report(
        &PATCH,
        &EMPTY_PATCH,
        &mut one,
        30,
        b"D hip-a-b-c-- 0\ndifferences 1\n",
    );
    let mut none = [7u8; 14];
    expect_report(&PATCH, &PATCH, &mut none, 14, b"differences 0\n");
}

// A report that does not fit is not written.
pub(crate) fn no_room() {
    let mut out = [7u8; 13];
    expect_report(
        &PATCH,
        &PATCH,
        &mut out,
        14,
        b"\x07\x07\x07\x07\x07\x07\x07\x07\x07\x07\x07\x07\x07",
    );
}

// What refuses the left, and then what refuses the right.
pub(crate) fn refused() {
    let mut left = [7u8; 16];
    expect_report(&SHARED_BYTE, b"", &mut left, 16, b"refused left 21\n");
    let mut right = [7u8; 16];
    expect_report(&PATCH, b"", &mut right, 16, b"refused right 2\n");
}
