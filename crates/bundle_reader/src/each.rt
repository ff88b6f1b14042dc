// The pick for each of several device names, from a bundle that is checked once.
ghost use Rattle.std.specs.Prelude.{◌≡◌, ℕ, ◌<◌, ◌≤◌, IfOk, length};
ghost use Rattle.wire.specs.Bits.{bits_below};
ghost use Rattle.wire.specs.First.{any_below};
ghost use Rattle.wire.specs.Lists.{tab};
ghost use Rattle.wire.specs.Stop.{over};
ghost use Rattle.entry_id.specs.Rules.{id_rules};
ghost use Rattle.bundle.specs.Table.{count};
ghost use Rattle.bundle.specs.Each.{part_of, slot_of, pick_each, slots_after};
ghost use Rattle.bundle.specs.Results.{picked_of, picked_each_of};
ghost use Rattle.bundle_reader.specs.Slots.{choice, image_of, takes, picked_at};

use crate::choice::pick_from;
use crate::entries::check_in;
use crate::id::CanonicalId;
use bundle::{EntryRecord, Image, Picked, Picks};
use entry_id::Reading;
use wire::{Reason, Refusal};

// The bytes of a part, its start and its length, of a buffer; none of one outside. The sum is never made, so it cannot wrap.
// Not cut, as `bytes_at` of offload binaries cuts: the definition `part_of` has no bytes of a part that goes past the end.
fn part_of(buffer: &[u8], part: [u64; 2]) -> &[u8]
    ensures { result.now ≡ part_of buffer.now part }
{
    let start = part[0] as usize;
    let len = part[1] as usize;
    if buffer.len() < start {
        return &buffer[..0];
    }
    let rest = &buffer[start..];
    if rest.len() < len {
        return &rest[..0];
    }
    &rest[..len]
}

// The numbers of a pick: number, index, position and size.
fn slot_of(picked: Result<Image, Refusal>) -> [u64; 4]
    ensures { result ≡ slot_of (picked_of picked) }
{
    let p = Picked::from(picked);
    [p.number as u64, p.index as u64, p.position, p.size]
}

// The bit of the entry that a pick takes, or 0.
// A bit of a number: the definition `pick_each` has such a word, and C gets it.
fn taken_bit(picked: Result<Image, Refusal>) -> u64
    requires { IfOk picked (λ image. image.index < 64) }
    ensures { result ≡ bits_below 64 (takes picked) }
{
    match picked {
        Ok(image) => 1u64 << image.index,
        Err(_) => 0,
    }
}

// The pick for one device name, which is made canonical in the scratch `name`.
fn pick_for(
    rows: &[EntryRecord],
    ids: &[CanonicalId],
    device: &[u8],
    name: &mut CanonicalId,
) -> Result<Image, Refusal>
    requires { length ids.now ≤ length rows.now }
    ensures { result ≡ image_of rows.now (choice ids.now (id_rules.canon device.now)) }
{
    if !name.read(Reading::General, device) {
        return Err(Reason::Query.at(0));
    }
    pick_from(rows, ids, name)
}

// The slots of the names, and the word of the entries taken.
fn fill_slots(
    rows: &[EntryRecord],
    ids: &[CanonicalId],
    buffer: &[u8],
    names: &[[u64; 2]],
    slots: &mut [[u64; 4]],
) -> u64
    requires room { length names.now ≤ length slots.old }
    requires few { (length ids.now ≤ length rows.now) × (length ids.now ≤ 64) }
    ensures word { result ≡ bits_below 64 (λ i. any_below (length names.now) (λ k. takes (picked_at rows.now ids.now buffer.now names.now k) i)) }
    ensures slots_after { slots.new ≡ over (tab (length names.now) (λ k. slot_of (picked_of (picked_at rows.now ids.now buffer.now names.now k)))) slots.old }
{
    let mut word = 0;
    let mut name = CanonicalId::new();
    for k in 0..names.len() {
        let picked = pick_for(rows, ids, part_of(buffer, names[k]), &mut name);
        slots[k] = slot_of(picked);
        word = word | taken_bit(picked);
    }
    word
}

// The pick for each name, in scratch: 1 to 8 and 21, 23 RACK, 12 ROOM.
pub(crate) fn pick_each_in(
    bundle: &[u8],
    buffer: &[u8],
    names: &[[u64; 2]],
    slots: &mut [[u64; 4]],
    rows: &mut [EntryRecord],
    ids: &mut [CanonicalId],
) -> Result<Picks, Refusal>
    requires { count bundle.now ≤ 64 → (count bundle.now ≤ length rows.old) × (count bundle.now ≤ length ids.old) }
    ensures value { picked_each_of result ≡ pick_each id_rules bundle.now buffer.now names.now (length slots.old) }
    ensures slots_after { slots.new ≡ slots_after id_rules bundle.now buffer.now names.now slots.old }
{
    let n = check_in(Reading::General, bundle, rows, ids)?;
    if 16 < names.len() {
        return Err(Reason::Names.at(0));
    }
    if slots.len() < names.len() {
        return Err(Reason::Room.at(0));
    }
    let word = fill_slots(&rows[..n], &ids[..n], buffer, names, slots);
    Ok(Picks {
        slots: names.len(),
        word,
        taken: word.count_ones() as usize,
    })
}
