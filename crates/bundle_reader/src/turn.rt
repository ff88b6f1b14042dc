// The pick from two bundles in turn by one device name, which is made canonical once.
ghost use Rattle.std.specs.Prelude.{◌≡◌, ◌≤◌, length, eqb};
ghost use Rattle.entry_id.specs.Rules.{id_rules};
ghost use Rattle.bundle.specs.Table.{count};
ghost use Rattle.bundle.specs.Results.{picked_of};
ghost use Rattle.bundle_reader.specs.Examined.{InTurn};

use crate::choice::pick_named_in;
use crate::entries::check_in;
use crate::id::CanonicalId;
use bundle::{EntryRecord, Image, PickedInTurn};
use entry_id::Reading;
use wire::{Reason, Refusal};

fn says_none(picked: Result<Image, Refusal>) -> bool
    ensures { result ≡ eqb (picked_of picked).number 10 }
{
    match picked {
        Ok(_) => false,
        Err(refusal) => refusal.reason == Reason::None,
    }
}

// One after the other in the same scratch.
pub(crate) fn pick_in_turn_in(
    first: &[u8],
    second: &[u8],
    device: &[u8],
    rows: &mut [EntryRecord],
    ids: &mut [CanonicalId],
) -> PickedInTurn
    requires room { count first.now ≤ 64 → (count first.now ≤ length rows.old) × (count first.now ≤ length ids.old) }
    requires second_room { count second.now ≤ 64 → (count second.now ≤ length rows.old) × (count second.now ≤ length ids.old) }
    ensures { InTurn id_rules first.now second.now device.now result }
{
    let name = CanonicalId::of(Reading::General, device);
    let picked = pick_named_in(Reading::General, first, &name, rows, ids);
    if says_none(picked) {
        return PickedInTurn::Second(pick_named_in(Reading::General, second, &name, rows, ids));
    }
    let checked = check_in(Reading::General, second, rows, ids);
    PickedInTurn::First { picked, checked }
}
