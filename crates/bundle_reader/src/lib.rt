// The check of a bundle, the pick of the image for a device name or for each of several, and the entry at an index.
#![tactic(auto)]

mod choice;
mod each;
mod entries;
mod id;
mod overlap;
mod relations;
mod table;
mod turn;

ghost use Rattle.std.specs.Prelude.{◌≡◌, Err, ◌≤◌, leb, IfOk, length, replicate};
ghost use Rattle.wire.specs.Refusals.{stop_of};
ghost use Rattle.entry_id.specs.Rules.{id_rules, rules_of};
ghost use Rattle.bundle.specs.Table.{count, row};
ghost use Rattle.bundle.specs.Check.{check, bundle_stop};
ghost use Rattle.bundle.specs.Pick.{pick};
ghost use Rattle.bundle.specs.Each.{pick_each, slots_after};
ghost use Rattle.bundle.specs.EntryAt.{entry_at};
ghost use Rattle.bundle.specs.Records.{no_record, rows_of, records_stop};
ghost use Rattle.bundle.specs.Results.{checked_of, picked_of, picked_each_of, located_of};
ghost use Rattle.bundle_reader.specs.Examined.{filled, form, rows_in, forms_of, forms_of_records, examined, examined_records, InTurn, pick_in_turn};

use crate::choice::pick_in;
use crate::each::pick_each_in;
use crate::entries::{check_in, check_records};
use crate::id::ids_of;
pub use crate::id::{CanonicalId, no_ids};
use crate::turn::pick_in_turn_in;
use bundle::{EntryRecord, Image, PickedInTurn, Picks};
use entry_id::Reading;
use wire::{Reason, Refusal};

// The record of zeros.
const NO_RECORD: EntryRecord = EntryRecord {
    id_start: 0,
    id_len: 0,
    image_start: 0,
    image_len: 0,
};

// The record of zeros in each of 64 places.
pub fn no_records() -> [EntryRecord; 64]
    ensures { result ≡ replicate 64 no_record }
{
    [NO_RECORD; 64]
}

// A bundle that was examined: its entry count and its rows; records of zeros in every other place.
// No heap: the rows stand in an array with room for all, and the contract of `examine` speaks of each of its 64 places.
#[derive(Clone, Copy)]
pub struct Examined {
    pub count: usize,
    pub rows: [EntryRecord; 64],
}

// 1 to 8 and 21 of a bundle, by a reading of its IDs, or its count and rows. The canonical IDs go to `ids`.
pub fn examine(
    reading: Reading,
    bundle: &[u8],
    ids: &mut [CanonicalId; 64],
) -> Result<Examined, Refusal>
    ensures answer { result ≡ examined (rules_of reading) bundle.now }
    ensures stop { stop_of result ≡ bundle_stop (rules_of reading) bundle.now }
    ensures value { IfOk result (λ e. e ≡ record { count = count bundle.now; rows = rows_in bundle.now (count bundle.now) }) }
    ensures ids_after { ids.new ≡ filled ids.old (forms_of (rules_of reading) bundle.now) (form (rules_of reading) (row bundle.now)) }
    ensures ids_len { length ids.old ≡ 64 }
{
    let mut rows = no_records();
    let count = check_in(reading, bundle, &mut rows, ids)?;
    Ok(Examined { count, rows })
}

// 3 to 8 of records, with IDs in `buffer` and images in a buffer of `len` bytes. The canonical IDs go to `ids`.
pub fn examine_records(
    buffer: &[u8],
    records: &[EntryRecord],
    len: usize,
    ids: &mut [CanonicalId; 64],
) -> Result<(), Refusal>
    ensures answer { result ≡ examined_records id_rules buffer.now len records.now }
    ensures stop { stop_of result ≡ records_stop id_rules buffer.now len (length records.now) records.now }
    ensures ids_after { ids.new ≡ filled ids.old (forms_of_records id_rules buffer.now (length records.now) records.now) (form id_rules (rows_of buffer.now records.now)) }
    ensures ids_len { length ids.old ≡ 64 }
{
    check_records(Reading::General, buffer, records, len, ids)
}

// ---- scratch: few entries need little

// At most 8 entries.
// Filling more scratch takes longer than a check of few. Its size is a const argument, so each call chooses one of two.
pub fn is_few(bundle: &[u8]) -> bool
    ensures { result ≡ leb (count bundle.now) 8 }
{
    wire_read::word_at::<8>(bundle, 24) <= 8
}

fn check_with<const N: usize>(reading: Reading, bundle: &[u8]) -> Result<usize, Refusal>
    requires { (N ≤ 64) × (count bundle.now ≤ 64 → count bundle.now ≤ N) }
    ensures { checked_of result ≡ check (rules_of reading) bundle.now }
{
    let mut rows = [NO_RECORD; N];
    let mut ids = ids_of::<N>();
    check_in(reading, bundle, &mut rows, &mut ids)
}

// The check of a bundle by a reading of its IDs: its entry count.
pub fn check_by(reading: Reading, bundle: &[u8]) -> Result<usize, Refusal>
    ensures { checked_of result ≡ check (rules_of reading) bundle.now }
{
    if is_few(bundle) {
        return check_with::<8>(reading, bundle);
    }
    check_with::<64>(reading, bundle)
}

// The check of a bundle, by the general reading.
// The name of the definition, of the docs and of the C call, as `pick` is: most callers name no reading.
pub fn check(bundle: &[u8]) -> Result<usize, Refusal>
    ensures { checked_of result ≡ check id_rules bundle.now }
{
    check_by(Reading::General, bundle)
}

fn pick_with<const N: usize>(
    reading: Reading,
    bundle: &[u8],
    device: &[u8],
) -> Result<Image, Refusal>
    requires { (N ≤ 64) × (count bundle.now ≤ 64 → count bundle.now ≤ N) }
    ensures { picked_of result ≡ pick (rules_of reading) bundle.now device.now }
{
    let mut rows = [NO_RECORD; N];
    let mut ids = ids_of::<N>();
    pick_in(reading, bundle, device, &mut rows, &mut ids)
}

// The pick of an image from a bundle by a device name, by a reading of its IDs and of the name.
pub fn pick_by(reading: Reading, bundle: &[u8], device: &[u8]) -> Result<Image, Refusal>
    ensures { picked_of result ≡ pick (rules_of reading) bundle.now device.now }
{
    if is_few(bundle) {
        return pick_with::<8>(reading, bundle, device);
    }
    pick_with::<64>(reading, bundle, device)
}

// The pick of an image from a bundle by a device name, by the general reading.
pub fn pick(bundle: &[u8], device: &[u8]) -> Result<Image, Refusal>
    ensures { picked_of result ≡ pick id_rules bundle.now device.now }
{
    pick_by(Reading::General, bundle, device)
}

fn pick_in_turn_with<const N: usize>(first: &[u8], second: &[u8], device: &[u8]) -> PickedInTurn
    requires { (N ≤ 64) × (count first.now ≤ 64 → count first.now ≤ N) × (count second.now ≤ 64 → count second.now ≤ N) }
    ensures { InTurn id_rules first.now second.now device.now result }
{
    let mut rows = [NO_RECORD; N];
    let mut ids = ids_of::<N>();
    pick_in_turn_in(first, second, device, &mut rows, &mut ids)
}

// The pick from a first bundle by a device name, and from a second one where the first says NONE; else the second is only checked.
pub fn pick_in_turn(first: &[u8], second: &[u8], device: &[u8]) -> PickedInTurn
    ensures answer { result ≡ pick_in_turn id_rules first.now second.now device.now }
    ensures turn { InTurn id_rules first.now second.now device.now result }
{
    if is_few(first) && is_few(second) {
        return pick_in_turn_with::<8>(first, second, device);
    }
    pick_in_turn_with::<64>(first, second, device)
}

fn pick_each_with<const N: usize>(
    bundle: &[u8],
    buffer: &[u8],
    names: &[[u64; 2]],
    slots: &mut [[u64; 4]],
) -> Result<Picks, Refusal>
    requires { (N ≤ 64) × (count bundle.now ≤ 64 → count bundle.now ≤ N) }
    ensures value { picked_each_of result ≡ pick_each id_rules bundle.now buffer.now names.now (length slots.old) }
    ensures slots_after { slots.new ≡ slots_after id_rules bundle.now buffer.now names.now slots.old }
{
    let mut rows = [NO_RECORD; N];
    let mut ids = ids_of::<N>();
    pick_each_in(bundle, buffer, names, slots, &mut rows, &mut ids)
}

// The pick for each of several device names, parts of a buffer by their starts and lengths: a slot for each, with number, index, position and size.
// Names and slots are rows of numbers, as the contract and C have them, each lent on its own: a struct of them would be taken apart at once.
pub fn pick_each(
    bundle: &[u8],
    buffer: &[u8],
    names: &[[u64; 2]],
    slots: &mut [[u64; 4]],
) -> Result<Picks, Refusal>
    ensures value { picked_each_of result ≡ pick_each id_rules bundle.now buffer.now names.now (length slots.old) }
    ensures slots_after { slots.new ≡ slots_after id_rules bundle.now buffer.now names.now slots.old }
{
    if is_few(bundle) {
        return pick_each_with::<8>(bundle, buffer, names, slots);
    }
    pick_each_with::<64>(bundle, buffer, names, slots)
}

fn entry_with<const N: usize>(bundle: &[u8], index: usize) -> Result<EntryRecord, Refusal>
    requires { (N ≤ 64) × (count bundle.now ≤ 64 → count bundle.now ≤ N) }
    ensures { located_of result ≡ entry_at id_rules bundle.now index }
{
    let mut rows = [NO_RECORD; N];
    let mut ids = ids_of::<N>();
    let count = check_in(Reading::General, bundle, &mut rows, &mut ids)?;
    if count <= index {
        return Err(Reason::None.at(0));
    }
    Ok(rows[index])
}

// The entry of a bundle at an index: where its image and its ID lie.
pub fn entry(bundle: &[u8], index: usize) -> Result<EntryRecord, Refusal>
    ensures { located_of result ≡ entry_at id_rules bundle.now index }
{
    if is_few(bundle) {
        return entry_with::<8>(bundle, index);
    }
    entry_with::<64>(bundle, index)
}
