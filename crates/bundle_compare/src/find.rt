// The differences of two lists of entries, which are in the order of their IDs.
ghost use Rattle.std.specs.Prelude.{◌≡◌, ◌+◌, ◌<◌, ◌≤◌, [], ◌∷◌, ◌++◌, map, T, Option, None, Some, cond, length, take};
ghost use Rattle.wire.specs.Bytes.{same, common};
ghost use Rattle.wire.specs.Order.{rising_by};
ghost use Rattle.bundle.specs.Normal.{by_id};
ghost use Rattle.bundle.specs.Differences.{differences_of};
ghost use Rattle.normal_form.specs.Code.{values, Short};
ghost use Rattle.bundle_compare.specs.Code.{shown, shown_all, ShortIds, Ordered};

use normal_form::Entry;
use std::cmp::Ordering;

// A difference of two bundles: an entry, by its ID, that only one of them has; or one that both have, and the first byte at which the images differ.
#[derive(Clone, Copy)]
pub(crate) enum Difference<'a> {
    OnlyLeft(&'a [u8]),
    OnlyRight(&'a [u8]),
    Images { id: &'a [u8], at: usize },
}

impl<'a> Difference<'a> {
    // The letter of its line.
    pub(crate) fn letter(self) -> u8
        ensures { result ≡ (shown self.entry).letter }
    {
        match self {
            Difference::OnlyLeft(_) => b'L',
            Difference::OnlyRight(_) => b'R',
            Difference::Images { .. } => b'D',
        }
    }

    pub(crate) fn id(self) -> &'a [u8]
        ensures { result.now ≡ (shown self.entry).id }
    {
        match self {
            Difference::OnlyLeft(id) | Difference::OnlyRight(id) => id,
            Difference::Images { id, .. } => id,
        }
    }
}

// A difference for places that are not filled yet.
pub(crate) const NO_DIFFERENCE: Difference<'static> = Difference::OnlyLeft(b"");

// Puts a difference behind the first `count`, and returns how many they are then.
fn add<'a>(found: &mut [Difference<'a>], count: usize, difference: Difference<'a>) -> usize
    requires { count < length found.old }
    ensures count { result ≡ count + 1 }
    ensures found_after { take (count + 1) found.new ≡ take count found.old ++ (difference.entry ∷ []) }
{
    found[count] = difference;
    count + 1
}

// How two IDs stand in byte order.
fn order(x: &[u8], y: &[u8]) -> Ordering
    ensures { Ordered x.now y.now result }
{
    if wire_read::same_bytes(x, y) {
        return Ordering::Equal;
    }
    if wire_read::comes_before(x, y) {
        return Ordering::Less;
    }
    Ordering::Greater
}

// The first byte at which two images differ.
// The length of the common start tells equality too: `same_bytes` would read both images a second time.
fn first_difference(x: &[u8], y: &[u8]) -> Option<usize>
    ensures { result ≡ cond (same x.now y.now) None (Some (common x.now y.now)) }
{
    let n = wire_read::common_prefix(x, y);
    if x.len() == y.len() && n == x.len() {
        return None;
    }
    Some(n)
}

// Lists the differences of the entries of the left and of the right in the first places, and returns how many they are.
pub(crate) fn find_differences<'a>(
    left: &[Entry<'a>],
    right: &[Entry<'a>],
    found: &mut [Difference<'a>],
) -> usize
    requires few { length left.now + length right.now ≤ length found.old }
    requires short { Short left.now × Short right.now }
    requires rising { T (rising_by by_id (values left.now)) × T (rising_by by_id (values right.now)) }
    ensures value { shown_all (take result found.new) ≡ differences_of (values left.now) (values right.now) }
    ensures fits { (result ≤ length left.now + length right.now) × ShortIds (take result found.new) }
{
    let mut count = 0;
    let mut i = 0;
    let mut j = 0;
    // Not a range: each list goes at its own pace.
    while i < left.len() && j < right.len() {
        let l = left[i];
        let r = right[j];
        match order(l.id, r.id) {
            Ordering::Less => {
                count = add(found, count, Difference::OnlyLeft(l.id));
                i += 1;
            }
            Ordering::Greater => {
                count = add(found, count, Difference::OnlyRight(r.id));
                j += 1;
            }
            Ordering::Equal => {
                if let Some(at) = first_difference(l.image, r.image) {
                    count = add(found, count, Difference::Images { id: l.id, at });
                }
                i += 1;
                j += 1;
            }
        }
    }
    for l in &left[i..] {
        count = add(found, count, Difference::OnlyLeft(l.id));
    }
    for r in &right[j..] {
        count = add(found, count, Difference::OnlyRight(r.id));
    }
    count
}
