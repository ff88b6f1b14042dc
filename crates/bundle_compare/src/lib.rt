// The report on the differences of two bundles.
#![tactic(auto)]

mod find;
mod report;

ghost use Rattle.std.specs.Prelude.{◌≡◌, ◌+◌, ◌≤◌, List, ℕ, length};
ghost use Rattle.bundle.specs.Table.{count};
ghost use Rattle.entry_id.specs.Rules.{id_rules};
ghost use Rattle.bundle.specs.Differences.{report, reported};
ghost use Rattle.bundle_compare.specs.Code.{Reads, Sorted};

use crate::find::{Difference, NO_DIFFERENCE, find_differences};
use crate::report::{write_differences, write_refused};
use bundle_reader::{CanonicalId, is_few, no_ids};
use entry_id::Reading;
use normal_form::{Entry, NO_ENTRY, sorted_entries};
use wire::{Reason, Refusal};

// The most bytes in a bundle that is compared.
const COMPARE_LIMIT: usize = 32768;

// Reads a bundle that is compared: its canonical IDs go to `ids`, its entries in the order of their IDs to the first places, and it is told how many they are.
// LENGTH refuses a longer one.
fn read<'a>(
    s: &'a [u8],
    ids: &'a mut [CanonicalId; 64],
    entries: &mut [Entry<'a>],
) -> Result<usize, Refusal>
    requires { count s.now ≤ 64 → count s.now ≤ length entries.old }
    ensures { Reads s.now result entries.new }
{
    if COMPARE_LIMIT < s.len() {
        return Err(Reason::Length.at(0));
    }
    // By reference, so that the rows are not copied.
    match &bundle_reader::examine(Reading::General, s, ids) {
        Ok(examined) => {
            sorted_entries(s, &examined.rows[..examined.count], ids, entries);
            Ok(examined.count)
        }
        Err(refusal) => Err(*refusal),
    }
}

// The report on bundles with these entries, in the order of their IDs. The differences go to `found`.
fn report_differences<'a>(
    left: &[Entry<'a>],
    right: &[Entry<'a>],
    found: &mut [Difference<'a>],
    out: &mut [u8],
) -> usize
    requires known { ((a : List ℕ) × Sorted a left.now) × ((b : List ℕ) × Sorted b right.now) }
    requires room { length left.now + length right.now ≤ length found.old }
    ensures value { (a b : List ℕ) → Sorted a left.now → Sorted b right.now → result ≡ length (report id_rules a b) }
    ensures out_after { (a b : List ℕ) → Sorted a left.now → Sorted b right.now → out.new ≡ reported id_rules a b out.old }
{
    let count = find_differences(left, right, found);
    write_differences(&found[..count], out)
}

// The report, of a right bundle whose entries go to `entries`.
fn compare_entries<'a>(
    left: &[Entry<'a>],
    right: &'a [u8],
    ids: &'a mut [CanonicalId; 64],
    entries: &mut [Entry<'a>],
    out: &mut [u8],
) -> usize
    requires known { (a : List ℕ) × Sorted a left.now }
    requires room { count right.now ≤ 64 → count right.now ≤ length entries.old }
    ensures value { (a : List ℕ) → Sorted a left.now → result ≡ length (report id_rules a right.now) }
    ensures out_after { (a : List ℕ) → Sorted a left.now → out.new ≡ reported id_rules a right.now out.old }
{
    match read(right, ids, entries) {
        Ok(count) => {
            let right = &entries[..count];
            if left.len() + count <= 16 {
                let mut few = [NO_DIFFERENCE; 16];
                return report_differences(left, right, &mut few, out);
            }
            let mut found = [NO_DIFFERENCE; 128];
            report_differences(left, right, &mut found, out)
        }
        Err(refusal) => write_refused(b"right", refusal.reason, out),
    }
}

// The report, of a left bundle whose entries these are, in the order of their IDs.
fn compare_right<'a>(left: &[Entry<'a>], right: &'a [u8], out: &mut [u8]) -> usize
    requires { (a : List ℕ) × Sorted a left.now }
    ensures value { (a : List ℕ) → Sorted a left.now → result ≡ length (report id_rules a right.now) }
    ensures out_after { (a : List ℕ) → Sorted a left.now → out.new ≡ reported id_rules a right.now out.old }
{
    let mut ids = no_ids();
    if is_few(right) {
        let mut few = [NO_ENTRY; 8];
        return compare_entries(left, right, &mut ids, &mut few, out);
    }
    let mut entries = [NO_ENTRY; 64];
    compare_entries(left, right, &mut ids, &mut entries, out)
}

// The report, of a left bundle whose entries go to `entries`.
fn compare_left<'a>(
    left: &'a [u8],
    right: &'a [u8],
    ids: &'a mut [CanonicalId; 64],
    entries: &mut [Entry<'a>],
    out: &mut [u8],
) -> usize
    requires { count left.now ≤ 64 → count left.now ≤ length entries.old }
    ensures value { result ≡ length (report id_rules left.now right.now) }
    ensures out_after { out.new ≡ reported id_rules left.now right.now out.old }
{
    match read(left, ids, entries) {
        Ok(count) => compare_right(&entries[..count], right, out),
        Err(refusal) => write_refused(b"left", refusal.reason, out),
    }
}

// The report on the differences of two bundles, over `out` where it fits; how many bytes it has. Few entries need few places.
pub fn compare<'a>(left: &'a [u8], right: &'a [u8], out: &mut [u8]) -> usize
    ensures value { result ≡ length (report id_rules left.now right.now) }
    ensures out_after { out.new ≡ reported id_rules left.now right.now out.old }
{
    let mut ids = no_ids();
    if is_few(left) {
        let mut few = [NO_ENTRY; 8];
        return compare_left(left, right, &mut ids, &mut few, out);
    }
    let mut entries = [NO_ENTRY; 64];
    compare_left(left, right, &mut ids, &mut entries, out)
}
