// 7 TWICE and 8 MIXED, of canonical IDs.
ghost use Rattle.std.specs.Prelude.{◌≡◌, false, ◌-◌, ◌<◌, length};
ghost use Rattle.wire.specs.Stop.{◌⨾◌, stop_at, earlier};
ghost use Rattle.wire.specs.Refusals.{stop_of};
ghost use Rattle.entry_id.specs.Canonical.{same_text, mixed_text};
ghost use Rattle.entry_compare.specs.Relations.{is_same, is_mixed};
ghost use Rattle.bundle_reader.specs.Examined.{id_at};
ghost use Rattle.bundle_reader.specs.Slots.{near};

use crate::id::CanonicalId;
use entry_compare::Relation;
use wire::{Reason, Refusal};

// The first ID with the number of ID i, or i, where `relation_before` then finds nothing; for the ID before it is `last`.
fn near_next(ids: &[CanonicalId], i: usize, last: usize) -> usize
    requires { (i < length ids.now) × (0 < i → last ≡ near ids.now (i - 1)) }
    ensures { result ≡ near ids.now i }
{
    let key = ids[i].key();
    if 0 < i && ids[i - 1].key() == key {
        return last;
    }
    for j in 0..i {
        if ids[j].key() == key {
            return j;
        }
    }
    i
}

// How earlier IDs stand to ID i: whether one has the same meaning; else whether one is mixed with it. None before `from` has the number of ID i.
// Its walk goes on behind a mixed one, where the other walks among earlier ones end at the first hit.
fn relation_before(ids: &[CanonicalId], from: usize, i: usize) -> Relation
    requires { (i < length ids.now) × (from ≡ near ids.now i) }
    ensures same { is_same result ≡ earlier same_text (id_at ids.now) i }
    ensures mixed { is_same result ≡ false → is_mixed result ≡ earlier mixed_text (id_at ids.now) i }
{
    let mut found = Relation::Apart;
    for j in from..i {
        match ids[j].relation(&ids[i]) {
            Relation::Same => return Relation::Same,
            Relation::Mixed => found = Relation::Mixed,
            Relation::Apart => (),
        }
    }
    found
}

pub(crate) fn check_relations(ids: &[CanonicalId]) -> Result<(), Refusal>
    ensures { stop_of result ≡ stop_at 7 (length ids.now) (earlier same_text (id_at ids.now)) ⨾ stop_at 8 (length ids.now) (earlier mixed_text (id_at ids.now)) }
{
    let mut from = 0;
    let mut mixed = None;
    for i in 0..ids.len() {
        from = near_next(ids, i, from);
        match relation_before(ids, from, i) {
            Relation::Same => return Err(Reason::Twice.at(i)),
            Relation::Mixed => mixed = mixed.or(Some(i)),
            Relation::Apart => (),
        }
    }
    match mixed {
        Some(i) => Err(Reason::Mixed.at(i)),
        None => Ok(()),
    }
}
