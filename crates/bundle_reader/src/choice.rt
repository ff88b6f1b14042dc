// The choice of an entry by a device name.
ghost use Rattle.std.specs.Prelude.{◌≡◌, List, ℕ, ◌≤◌, length, position};
ghost use Rattle.entry_id.specs.Canonical.{compatible_text};
ghost use Rattle.entry_id.specs.Rules.{rules_of};
ghost use Rattle.bundle.specs.Table.{count};
ghost use Rattle.bundle.specs.Pick.{pick};
ghost use Rattle.bundle.specs.Results.{picked_of};
ghost use Rattle.bundle_reader.specs.Slots.{choice, image_of};

use crate::entries::check_in;
use crate::id::CanonicalId;
use bundle::{EntryRecord, Image};
use entry_id::Reading;
use wire::{Reason, Refusal};

// The first of the canonical IDs that is compatible with a device name.
fn first_compatible(ids: &[CanonicalId], name: &CanonicalId) -> Option<usize>
    ensures { result ≡ position (λ id. compatible_text id name.now) ids.now }
{
    ids.iter().position(|id| id.fits(name))
}

// The first entry that is compatible with a device name, from their canonical IDs; 10 NONE; 9 QUERY where the name breaks the rules and has none.
pub(crate) fn choose(ids: &[CanonicalId], name: &CanonicalId) -> Result<usize, Refusal>
    ensures { result ≡ choice ids.now name.now }
{
    if name.text().is_empty() {
        return Err(Reason::Query.at(0));
    }
    first_compatible(ids, name).ok_or(Reason::None.at(0))
}

// The image that a device name chooses, of entries with these rows and canonical IDs.
pub(crate) fn pick_from(
    rows: &[EntryRecord],
    ids: &[CanonicalId],
    name: &CanonicalId,
) -> Result<Image, Refusal>
    requires { length ids.now ≤ length rows.now }
    ensures { result ≡ image_of rows.now (choice ids.now name.now) }
{
    let index = choose(ids, name)?;
    let row = rows[index];
    Ok(Image {
        index,
        position: row.image_start,
        size: row.image_len,
    })
}

// The pick from a bundle by a device name in canonical form.
pub(crate) fn pick_named_in(
    reading: Reading,
    s: &[u8],
    name: &CanonicalId,
    rows: &mut [EntryRecord],
    ids: &mut [CanonicalId],
) -> Result<Image, Refusal>
    requires { count s.now ≤ 64 → (count s.now ≤ length rows.old) × (count s.now ≤ length ids.old) }
    ensures { (device : List ℕ) → name.now ≡ (rules_of reading).canon device → picked_of result ≡ pick (rules_of reading) s.now device }
{
    let n = check_in(reading, s, rows, ids)?;
    pick_from(&rows[..n], &ids[..n], name)
}

// The pick from a bundle by a device name, which is made canonical only where the check lets the bundle pass.
pub(crate) fn pick_in(
    reading: Reading,
    s: &[u8],
    device: &[u8],
    rows: &mut [EntryRecord],
    ids: &mut [CanonicalId],
) -> Result<Image, Refusal>
    requires { count s.now ≤ 64 → (count s.now ≤ length rows.old) × (count s.now ≤ length ids.old) }
    ensures { picked_of result ≡ pick (rules_of reading) s.now device.now }
{
    let n = check_in(reading, s, rows, ids)?;
    let name = CanonicalId::of(reading, device);
    pick_from(&rows[..n], &ids[..n], &name)
}
