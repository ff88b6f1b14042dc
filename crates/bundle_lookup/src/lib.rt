// The image for a device name from two bundles, a patch before the main one.
#![tactic(auto)]

ghost use Rattle.std.specs.Prelude.{◌≡◌, ◌+◌, ◌≤◌, length, take, drop};
ghost use Rattle.wire.specs.Refusals.{number_of};
ghost use Rattle.entry_id.specs.Rules.{id_rules};
ghost use Rattle.bundle.specs.Lookup.{numbers_of, bundle_of, lookup, lookup_image};
ghost use Rattle.bundle.specs.Results.{picked_of, source_number, found_of};
ghost use Rattle.bundle_lookup.specs.Answer.{is_refused, answer_of};

use bundle::{Found, Image, LookupRefusal, PickedInTurn, Source, SourceImage};
use wire::{Reason, Refusal};

// The check refuses a bundle for this reason: QUERY and NONE concern no bundle.
fn of_check(reason: Reason) -> bool
    ensures { result ≡ is_refused (number_of reason) }
{
    match reason {
        Reason::Query => false,
        Reason::None => false,
        _ => true,
    }
}

// The answer that a pick from this bundle gives. An image of size 0 is one.
fn answer(source: Source, picked: Result<Image, Refusal>) -> Result<SourceImage, LookupRefusal>
    ensures { found_of result ≡ answer_of (source_number source) (picked_of picked) }
{
    match picked {
        Ok(image) => Ok(SourceImage {
            source,
            position: image.position,
            size: image.size,
        }),
        Err(refusal) => Err(LookupRefusal {
            refusal,
            source: of_check(refusal.reason).then_some(source),
        }),
    }
}

// The pick from the patch refuses by what the check of the patch refuses.
fn stops(picked: Result<Image, Refusal>) -> bool
    ensures { result ≡ is_refused (picked_of picked).number }
{
    match picked {
        Ok(_) => false,
        Err(refusal) => of_check(refusal.reason),
    }
}

// The image for a device name: the bundle that holds it, and where it lies there. Each bundle is checked once, and the name is made canonical once. What
// refuses the patch comes first, then what refuses the main bundle, which answers where the patch says NONE.
pub fn find_image(patch: &[u8], main: &[u8], device: &[u8]) -> Result<SourceImage, LookupRefusal>
    ensures { found_of result ≡ lookup id_rules patch.now main.now device.now }
{
    match bundle_reader::pick_in_turn(patch, main, device) {
        PickedInTurn::Second(picked) => answer(Source::Main, picked),
        PickedInTurn::First { picked, checked } => {
            if stops(picked) {
                return answer(Source::Patch, picked);
            }
            match checked {
                Err(refusal) => answer(Source::Main, Err(refusal)),
                Ok(_) => answer(Source::Patch, picked),
            }
        }
    }
}

// The bytes of an image. Nothing is cut off or left out here, as `part_of` of names and `bytes_at` of binaries do: an answer lies inside.
fn part(s: &[u8], found: SourceImage) -> &[u8]
    requires { found.position + found.size ≤ length s.now }
    ensures { result.now ≡ take found.size (drop found.position s.now) }
{
    &s[found.position..found.position + found.size]
}

// The part of the bundles that an answer names.
fn part_of<'a>(
    patch: &'a [u8],
    main: &'a [u8],
    found: Result<SourceImage, LookupRefusal>,
) -> &'a [u8]
    requires { (found_of found).position + (found_of found).size ≤ length (bundle_of patch.now main.now (found_of found).bundle) }
    ensures { result.now ≡ take (found_of found).size (drop (found_of found).position (bundle_of patch.now main.now (found_of found).bundle)) }
{
    match found {
        Ok(found) => match found.source {
            Source::Patch => part(patch, found),
            Source::Main => part(main, found),
        },
        Err(_) => &main[..0],
    }
}

// The image itself, a part of the bundle that holds it, empty on a refusal; its number, place, bundle, position and size go to `numbers`.
// The numbers are a list of five, as the definition `numbers_of` has them. `usize` and `u64` both have 64 bits here, and std has no `From` between them.
pub fn lookup<'a>(
    patch: &'a [u8],
    main: &'a [u8],
    device: &[u8],
    numbers: &mut [u64; 5],
) -> &'a [u8]
    ensures result_value { result.now ≡ lookup_image id_rules patch.now main.now device.now }
    ensures numbers_after { numbers.new ≡ numbers_of (lookup id_rules patch.now main.now device.now) }
{
    let found = find_image(patch, main, device);
    let f = Found::from(found);
    *numbers = [
        f.number as u64,
        f.place as u64,
        f.bundle as u64,
        f.position,
        f.size,
    ];
    part_of(patch, main, found)
}
