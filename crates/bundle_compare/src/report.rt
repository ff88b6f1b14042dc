// The text of a report. What is put to an output that is too short is measured: the place behind it is right, and the output is not to be used.
// By hand: `to_string` takes heap, and the length of a text that does not fit is still asked for.
ghost use Rattle.std.specs.Prelude.{◌≡◌, ◌+◌, ◌<◌, ◌≤◌, [], ◌∷◌, ◌++◌, map, length};
ghost use Rattle.wire.specs.Bytes.{overwrite};
ghost use Rattle.wire.specs.Refusals.{number_of};
ghost use Rattle.bundle.specs.Differences.{decimal, line, ended, printed, refused_line, difference_lines};
ghost use Rattle.bundle_compare.specs.Code.{shown, shown_all, ShortIds, Put};

use crate::find::Difference;
use wire::Reason;

// Puts bytes to `out` from `at` on; the place behind them.
fn put(out: &mut [u8], at: usize, bytes: &[u8]) -> usize
    requires { at + length bytes.now ≤ 65536 }
    ensures { Put out.old at bytes.now result out.new }
{
    wire_copy::copy_at(out, at, bytes);
    at + bytes.len()
}

fn put_digit(out: &mut [u8], at: usize, v: usize) -> usize
    requires { (v < 10) × (at + 1 ≤ 65536) }
    ensures { Put out.old at ((48 + v) ∷ []) result out.new }
{
    let digit = [(48 + v) as u8];
    put(out, at, &digit)
}

// A number's decimal digits.
fn put_decimal(out: &mut [u8], at: usize, v: usize) -> usize
    requires { at + length (decimal v) ≤ 65536 }
    ensures { Put out.old at (decimal v) result out.new }
{
    if v < 10 {
        return put_digit(out, at, v);
    }
    let next = put_decimal(out, at, v / 10);
    put_digit(out, next, v % 10)
}

// A number as the last part of its line.
fn put_number(out: &mut [u8], at: usize, v: usize) -> usize
    requires { at + 22 ≤ 65536 }
    ensures { Put out.old at (32 ∷ (decimal v ++ (10 ∷ []))) result out.new × (result ≤ at + 22) }
{
    let digits = put(out, at, b" ");
    let end = put_decimal(out, digits, v);
    put(out, end, b"\n")
}

// The line of a difference.
fn put_line(out: &mut [u8], at: usize, difference: Difference) -> usize
    requires { (length (shown difference).id ≤ 256) × (at + 280 ≤ 65536) }
    ensures { Put out.old at (ended (line (shown difference.entry))) result out.new × (result ≤ at + 280) }
{
    let head = [difference.letter(), b' '];
    let name = put(out, at, &head);
    let end = put(out, name, difference.id());
    if let Difference::Images { at: n, .. } = difference {
        return put_number(out, end, n);
    }
    put(out, end, b"\n")
}

fn put_lines(found: &[Difference], out: &mut [u8]) -> usize
    requires { (length found.now ≤ 128) × ShortIds found.now }
    ensures { Put out.old 0 (printed (map line (shown_all found.now))) result out.new × (result ≤ 35840) }
{
    let mut at = 0;
    for difference in found {
        at = put_line(out, at, *difference);
    }
    at
}

// The lines of differences, and the last line.
fn put_differences(found: &[Difference], out: &mut [u8]) -> usize
    requires { (length found.now ≤ 128) × ShortIds found.now }
    ensures { Put out.old 0 (printed (difference_lines (shown_all found.now))) result out.new }
{
    let last = put_lines(found, out);
    let end = put(out, last, b"differences");
    put_number(out, end, found.len())
}

// The report on the differences found, over `out` where it fits; how many bytes it has.
pub(crate) fn write_differences(found: &[Difference], out: &mut [u8]) -> usize
    requires { (length found.now ≤ 128) × ShortIds found.now }
    ensures { (result ≡ length (printed (difference_lines (shown_all found.now)))) × (out.new ≡ overwrite out.old 0 (printed (difference_lines (shown_all found.now)))) }
{
    let mut none = [0u8; 0];
    let len = put_differences(found, &mut none);
    if out.len() < len {
        return len;
    }
    put_differences(found, out)
}

// The line of a refused bundle.
fn put_refused(side: &[u8], reason: Reason, out: &mut [u8]) -> usize
    requires { length side.now ≤ 5 }
    ensures { Put out.old 0 (printed (refused_line side.now (number_of reason) ∷ [])) result out.new × (result ≤ 36) }
{
    let name = put(out, 0, b"refused ");
    let end = put(out, name, side);
    put_number(out, end, reason.number())
}

// The report on a refused bundle, over `out` where it fits; how many bytes it has.
// Its line fits a small array, so it is put once and copied; differences are measured first, and put a second time.
pub(crate) fn write_refused(side: &[u8], reason: Reason, out: &mut [u8]) -> usize
    requires { length side.now ≤ 5 }
    ensures { (result ≡ length (printed (refused_line side.now (number_of reason) ∷ []))) × (out.new ≡ overwrite out.old 0 (printed (refused_line side.now (number_of reason) ∷ []))) }
{
    let mut line = [0u8; 36];
    let len = put_refused(side, reason, &mut line);
    wire_copy::copy_at(out, 0, &line[..len]);
    len
}
