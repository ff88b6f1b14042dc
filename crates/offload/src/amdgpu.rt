// The C calls of the profile for AMD cards: those of the general reading, by the profile's.
// Each has a twin in lib.rt, by the general reading: C has no generic functions.
ghost use Rattle.std.specs.Prelude.{◌≡◌, length};
ghost use Rattle.entry_id.specs.Rules.{rules_of};
ghost use Rattle.entry_id.specs.declared.Reading.TheVariants.{Profile};
ghost use Rattle.bundle.specs.Check.{check};
ghost use Rattle.bundle.specs.Pick.{pick};
ghost use Rattle.bundle.specs.Normal.{normalise, normalised};

use bundle::{Checked, Picked, Written};
use entry_id::Reading;

#[unsafe(no_mangle)]
pub extern "C" fn offload_amdgpu_check_number(bundle: &[u8]) -> u64
    ensures { result ≡ (check (rules_of Profile) bundle.now).number }
{
    Checked::from(bundle_reader::check_by(Reading::Profile, bundle)).number as u64
}

#[unsafe(no_mangle)]
pub extern "C" fn offload_amdgpu_check_place(bundle: &[u8]) -> u64
    ensures { result ≡ (check (rules_of Profile) bundle.now).place }
{
    Checked::from(bundle_reader::check_by(Reading::Profile, bundle)).place as u64
}

#[unsafe(no_mangle)]
pub extern "C" fn offload_amdgpu_check_count(bundle: &[u8]) -> u64
    ensures { result ≡ (check (rules_of Profile) bundle.now).count }
{
    Checked::from(bundle_reader::check_by(Reading::Profile, bundle)).count as u64
}

#[unsafe(no_mangle)]
pub extern "C" fn offload_amdgpu_pick_number(bundle: &[u8], device: &[u8]) -> u64
    ensures { result ≡ (pick (rules_of Profile) bundle.now device.now).number }
{
    Picked::from(bundle_reader::pick_by(Reading::Profile, bundle, device)).number as u64
}

#[unsafe(no_mangle)]
pub extern "C" fn offload_amdgpu_pick_place(bundle: &[u8], device: &[u8]) -> u64
    ensures { result ≡ (pick (rules_of Profile) bundle.now device.now).place }
{
    Picked::from(bundle_reader::pick_by(Reading::Profile, bundle, device)).place as u64
}

#[unsafe(no_mangle)]
pub extern "C" fn offload_amdgpu_pick_index(bundle: &[u8], device: &[u8]) -> u64
    ensures { result ≡ (pick (rules_of Profile) bundle.now device.now).index }
{
    Picked::from(bundle_reader::pick_by(Reading::Profile, bundle, device)).index as u64
}

#[unsafe(no_mangle)]
pub extern "C" fn offload_amdgpu_pick_position(bundle: &[u8], device: &[u8]) -> u64
    ensures { result ≡ (pick (rules_of Profile) bundle.now device.now).position }
{
    Picked::from(bundle_reader::pick_by(Reading::Profile, bundle, device)).position
}

#[unsafe(no_mangle)]
pub extern "C" fn offload_amdgpu_pick_size(bundle: &[u8], device: &[u8]) -> u64
    ensures { result ≡ (pick (rules_of Profile) bundle.now device.now).size }
{
    Picked::from(bundle_reader::pick_by(Reading::Profile, bundle, device)).size
}

#[unsafe(no_mangle)]
pub extern "C" fn offload_amdgpu_normalise_number(bundle: &[u8], out: &mut [u8]) -> u64
    ensures value { result ≡ (normalise (rules_of Profile) bundle.now (length out.old)).number }
    ensures out_after { out.new ≡ normalised (rules_of Profile) bundle.now out.old }
{
    Written::from(normal_form::normalise_by(Reading::Profile, bundle, out)).number as u64
}

#[unsafe(no_mangle)]
pub extern "C" fn offload_amdgpu_normalise_place(bundle: &[u8], out: &mut [u8]) -> u64
    ensures value { result ≡ (normalise (rules_of Profile) bundle.now (length out.old)).place }
    ensures out_after { out.new ≡ normalised (rules_of Profile) bundle.now out.old }
{
    Written::from(normal_form::normalise_by(Reading::Profile, bundle, out)).place as u64
}

#[unsafe(no_mangle)]
pub extern "C" fn offload_amdgpu_normalise_length(bundle: &[u8], out: &mut [u8]) -> u64
    ensures value { result ≡ (normalise (rules_of Profile) bundle.now (length out.old)).length }
    ensures out_after { out.new ≡ normalised (rules_of Profile) bundle.now out.old }
{
    Written::from(normal_form::normalise_by(Reading::Profile, bundle, out)).length as u64
}
