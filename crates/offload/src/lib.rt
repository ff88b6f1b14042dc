// The C calls. Each does the whole job and returns one number of the answer. C has no generic functions: each number, and each reading, has a name of its own.
// C gets each number as 64 bits, as `usize` is here: std has no `From` between them, so `as` casts.
#![tactic(auto)]

mod amdgpu;
mod binaries;

ghost use Rattle.std.specs.Prelude.{◌≡◌, length};
ghost use Rattle.entry_id.specs.Rules.{id_rules};
ghost use Rattle.bundle.specs.Check.{check};
ghost use Rattle.bundle.specs.Pick.{pick};
ghost use Rattle.bundle.specs.Each.{pick_each, slots_after};
ghost use Rattle.bundle.specs.Lookup.{lookup};
ghost use Rattle.bundle.specs.EntryAt.{entry_at};
ghost use Rattle.bundle.specs.Normal.{normalise, normalised};
ghost use Rattle.bundle.specs.Differences.{report, reported};

use bundle::{Checked, Found, Located, Picked, PickedEach, Written};

#[unsafe(no_mangle)]
pub extern "C" fn offload_check_number(bundle: &[u8]) -> u64
    ensures { result ≡ (check id_rules bundle.now).number }
{
    Checked::from(bundle_reader::check(bundle)).number as u64
}

#[unsafe(no_mangle)]
pub extern "C" fn offload_check_place(bundle: &[u8]) -> u64
    ensures { result ≡ (check id_rules bundle.now).place }
{
    Checked::from(bundle_reader::check(bundle)).place as u64
}

#[unsafe(no_mangle)]
pub extern "C" fn offload_check_count(bundle: &[u8]) -> u64
    ensures { result ≡ (check id_rules bundle.now).count }
{
    Checked::from(bundle_reader::check(bundle)).count as u64
}

#[unsafe(no_mangle)]
pub extern "C" fn offload_pick_number(bundle: &[u8], device: &[u8]) -> u64
    ensures { result ≡ (pick id_rules bundle.now device.now).number }
{
    Picked::from(bundle_reader::pick(bundle, device)).number as u64
}

#[unsafe(no_mangle)]
pub extern "C" fn offload_pick_place(bundle: &[u8], device: &[u8]) -> u64
    ensures { result ≡ (pick id_rules bundle.now device.now).place }
{
    Picked::from(bundle_reader::pick(bundle, device)).place as u64
}

#[unsafe(no_mangle)]
pub extern "C" fn offload_pick_index(bundle: &[u8], device: &[u8]) -> u64
    ensures { result ≡ (pick id_rules bundle.now device.now).index }
{
    Picked::from(bundle_reader::pick(bundle, device)).index as u64
}

#[unsafe(no_mangle)]
pub extern "C" fn offload_pick_position(bundle: &[u8], device: &[u8]) -> u64
    ensures { result ≡ (pick id_rules bundle.now device.now).position }
{
    Picked::from(bundle_reader::pick(bundle, device)).position
}

#[unsafe(no_mangle)]
pub extern "C" fn offload_pick_size(bundle: &[u8], device: &[u8]) -> u64
    ensures { result ≡ (pick id_rules bundle.now device.now).size }
{
    Picked::from(bundle_reader::pick(bundle, device)).size
}

#[unsafe(no_mangle)]
pub extern "C" fn offload_pick_each_number(
    bundle: &[u8],
    buffer: &[u8],
    names: &[[u64; 2]],
    slots: &mut [[u64; 4]],
) -> u64
    ensures value { result ≡ (pick_each id_rules bundle.now buffer.now names.now (length slots.old)).number }
    ensures slots_after { slots.new ≡ slots_after id_rules bundle.now buffer.now names.now slots.old }
{
    PickedEach::from(bundle_reader::pick_each(bundle, buffer, names, slots)).number as u64
}

#[unsafe(no_mangle)]
pub extern "C" fn offload_pick_each_place(
    bundle: &[u8],
    buffer: &[u8],
    names: &[[u64; 2]],
    slots: &mut [[u64; 4]],
) -> u64
    ensures value { result ≡ (pick_each id_rules bundle.now buffer.now names.now (length slots.old)).place }
    ensures slots_after { slots.new ≡ slots_after id_rules bundle.now buffer.now names.now slots.old }
{
    PickedEach::from(bundle_reader::pick_each(bundle, buffer, names, slots)).place as u64
}

#[unsafe(no_mangle)]
pub extern "C" fn offload_pick_each_slots(
    bundle: &[u8],
    buffer: &[u8],
    names: &[[u64; 2]],
    slots: &mut [[u64; 4]],
) -> u64
    ensures value { result ≡ (pick_each id_rules bundle.now buffer.now names.now (length slots.old)).slots }
    ensures slots_after { slots.new ≡ slots_after id_rules bundle.now buffer.now names.now slots.old }
{
    PickedEach::from(bundle_reader::pick_each(bundle, buffer, names, slots)).slots as u64
}

#[unsafe(no_mangle)]
pub extern "C" fn offload_pick_each_word(
    bundle: &[u8],
    buffer: &[u8],
    names: &[[u64; 2]],
    slots: &mut [[u64; 4]],
) -> u64
    ensures value { result ≡ (pick_each id_rules bundle.now buffer.now names.now (length slots.old)).word }
    ensures slots_after { slots.new ≡ slots_after id_rules bundle.now buffer.now names.now slots.old }
{
    PickedEach::from(bundle_reader::pick_each(bundle, buffer, names, slots)).word
}

#[unsafe(no_mangle)]
pub extern "C" fn offload_pick_each_taken(
    bundle: &[u8],
    buffer: &[u8],
    names: &[[u64; 2]],
    slots: &mut [[u64; 4]],
) -> u64
    ensures value { result ≡ (pick_each id_rules bundle.now buffer.now names.now (length slots.old)).taken }
    ensures slots_after { slots.new ≡ slots_after id_rules bundle.now buffer.now names.now slots.old }
{
    PickedEach::from(bundle_reader::pick_each(bundle, buffer, names, slots)).taken as u64
}

#[unsafe(no_mangle)]
pub extern "C" fn offload_lookup_number(patch: &[u8], main: &[u8], device: &[u8]) -> u64
    ensures { result ≡ (lookup id_rules patch.now main.now device.now).number }
{
    Found::from(bundle_lookup::find_image(patch, main, device)).number as u64
}

#[unsafe(no_mangle)]
pub extern "C" fn offload_lookup_place(patch: &[u8], main: &[u8], device: &[u8]) -> u64
    ensures { result ≡ (lookup id_rules patch.now main.now device.now).place }
{
    Found::from(bundle_lookup::find_image(patch, main, device)).place as u64
}

#[unsafe(no_mangle)]
pub extern "C" fn offload_lookup_bundle(patch: &[u8], main: &[u8], device: &[u8]) -> u64
    ensures { result ≡ (lookup id_rules patch.now main.now device.now).bundle }
{
    Found::from(bundle_lookup::find_image(patch, main, device)).bundle as u64
}

#[unsafe(no_mangle)]
pub extern "C" fn offload_lookup_position(patch: &[u8], main: &[u8], device: &[u8]) -> u64
    ensures { result ≡ (lookup id_rules patch.now main.now device.now).position }
{
    Found::from(bundle_lookup::find_image(patch, main, device)).position
}

#[unsafe(no_mangle)]
pub extern "C" fn offload_lookup_size(patch: &[u8], main: &[u8], device: &[u8]) -> u64
    ensures { result ≡ (lookup id_rules patch.now main.now device.now).size }
{
    Found::from(bundle_lookup::find_image(patch, main, device)).size
}

#[unsafe(no_mangle)]
pub extern "C" fn offload_entry_number(bundle: &[u8], index: usize) -> u64
    ensures { result ≡ (entry_at id_rules bundle.now index).number }
{
    Located::from(bundle_reader::entry(bundle, index)).number as u64
}

#[unsafe(no_mangle)]
pub extern "C" fn offload_entry_place(bundle: &[u8], index: usize) -> u64
    ensures { result ≡ (entry_at id_rules bundle.now index).place }
{
    Located::from(bundle_reader::entry(bundle, index)).place as u64
}

#[unsafe(no_mangle)]
pub extern "C" fn offload_entry_position(bundle: &[u8], index: usize) -> u64
    ensures { result ≡ (entry_at id_rules bundle.now index).position }
{
    Located::from(bundle_reader::entry(bundle, index)).position
}

#[unsafe(no_mangle)]
pub extern "C" fn offload_entry_size(bundle: &[u8], index: usize) -> u64
    ensures { result ≡ (entry_at id_rules bundle.now index).size }
{
    Located::from(bundle_reader::entry(bundle, index)).size
}

#[unsafe(no_mangle)]
pub extern "C" fn offload_entry_id_position(bundle: &[u8], index: usize) -> u64
    ensures { result ≡ (entry_at id_rules bundle.now index).id_position }
{
    Located::from(bundle_reader::entry(bundle, index)).id_position as u64
}

#[unsafe(no_mangle)]
pub extern "C" fn offload_entry_id_length(bundle: &[u8], index: usize) -> u64
    ensures { result ≡ (entry_at id_rules bundle.now index).id_length }
{
    Located::from(bundle_reader::entry(bundle, index)).id_length as u64
}

#[unsafe(no_mangle)]
pub extern "C" fn offload_normalise_number(bundle: &[u8], out: &mut [u8]) -> u64
    ensures value { result ≡ (normalise id_rules bundle.now (length out.old)).number }
    ensures out_after { out.new ≡ normalised id_rules bundle.now out.old }
{
    Written::from(normal_form::normalise(bundle, out)).number as u64
}

#[unsafe(no_mangle)]
pub extern "C" fn offload_normalise_place(bundle: &[u8], out: &mut [u8]) -> u64
    ensures value { result ≡ (normalise id_rules bundle.now (length out.old)).place }
    ensures out_after { out.new ≡ normalised id_rules bundle.now out.old }
{
    Written::from(normal_form::normalise(bundle, out)).place as u64
}

#[unsafe(no_mangle)]
pub extern "C" fn offload_normalise_length(bundle: &[u8], out: &mut [u8]) -> u64
    ensures value { result ≡ (normalise id_rules bundle.now (length out.old)).length }
    ensures out_after { out.new ≡ normalised id_rules bundle.now out.old }
{
    Written::from(normal_form::normalise(bundle, out)).length as u64
}

#[unsafe(no_mangle)]
pub extern "C" fn offload_compare_length(left: &[u8], right: &[u8], out: &mut [u8]) -> u64
    ensures value { result ≡ length (report id_rules left.now right.now) }
    ensures out_after { out.new ≡ reported id_rules left.now right.now out.old }
{
    bundle_compare::compare(left, right, out) as u64
}
