// 21 OVERLAP, of the images of rows.
ghost use Rattle.std.specs.Prelude.{◌≡◌, true, false, ℕ, ◌+◌, ◌<◌, ◌≤◌, length};
ghost use Rattle.wire.specs.Limit.{limit};
ghost use Rattle.wire.specs.Stop.{stop_at, earlier};
ghost use Rattle.wire.specs.Refusals.{stop_of};
ghost use Rattle.bundle.specs.Check.{overlaps};
ghost use Rattle.bundle_reader.specs.Slots.{image, images, Within, AllWithin};

use bundle::EntryRecord;
use wire::{Reason, Refusal};

// Two images share a byte and are not the same span.
fn overlap(a: EntryRecord, b: EntryRecord) -> bool
    requires { Within limit a × Within limit b }
    ensures { result ≡ overlaps (image a) (image b) }
{
    let (start, len) = (a.image_start, a.image_len);
    let (offset, size) = (b.image_start, b.image_len);
    let shared = (0 < len) & (0 < size) & (start < offset + size) & (offset < start + len);
    shared & !((start == offset) & (len == size))
}

// An image before image i overlaps it.
fn overlaps_before(rows: &[EntryRecord], i: usize) -> bool
    requires { AllWithin limit rows.now × (i < length rows.now) }
    ensures { result ≡ earlier overlaps (images rows.now) i }
{
    for j in 0..i {
        if overlap(rows[j], rows[i]) {
            return true;
        }
    }
    false
}

// Each image lies above or below all that come before it, as they do in rising and in falling order. Then no two share a byte.
fn side_by_side(rows: &[EntryRecord]) -> bool
    requires { AllWithin limit rows.now }
    ensures { result ≡ true → (i : ℕ) → i < length rows.now → earlier overlaps (images rows.now) i ≡ false }
{
    let mut low = usize::MAX;
    let mut high = 0;
    for row in rows {
        let start = row.image_start;
        let end = start + row.image_len;
        if (start < high) & (low < end) {
            return false;
        }
        low = low.min(start);
        high = high.max(end);
    }
    true
}

// 21: images are compared in pairs only where their order does not settle it.
pub(crate) fn check_overlaps(rows: &[EntryRecord]) -> Result<(), Refusal>
    requires { AllWithin limit rows.now }
    ensures { stop_of result ≡ stop_at 21 (length rows.now) (earlier overlaps (images rows.now)) }
{
    if side_by_side(rows) {
        return Ok(());
    }
    for i in 0..rows.len() {
        if overlaps_before(rows, i) {
            return Err(Reason::Overlap.at(i));
        }
    }
    Ok(())
}
