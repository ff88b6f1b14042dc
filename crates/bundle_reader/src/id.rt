// The canonical form of an ID, with the number of its head.
ghost use Rattle.std.specs.Prelude.{◌≡◌, ◌≤◌, ◌++◌, drop, [], not, length, replicate};
ghost use Rattle.wire.specs.Bytes.{empty};
ghost use Rattle.entry_id.specs.Canonical.{head_key, same_text, mixed_text, compatible_text};
ghost use Rattle.entry_id.specs.Rules.{rules_of};
ghost use Rattle.canonical_form.specs.Made.{form_of};
ghost use Rattle.bundle_reader.specs.Examined.{taken};
ghost use Rattle.entry_compare.specs.Relations.{is_same, is_mixed};

use canonical_form::Form;
use entry_compare::Relation;
use entry_id::Reading;
use std::marker::Model;

// The canonical form of an ID; no bytes where there is none yet. Its head's number is kept beside it: texts that a test relates have one number.
#[derive(Drop)]
pub struct CanonicalId {
    text: [u8; 256],
    len: usize,
    key: u64,
}

impl Model for CanonicalId {
    ghost use Rattle.std.specs.Prelude.{◌≡◌, ◌≤◌, List, ℕ, take};
    ghost use Rattle.entry_id.specs.Canonical.{head_key};

    ghost Value = { List ℕ };

    ghost view = { λ s. take s.len s.text };

    ghost invariant = { λ s. (s.len ≤ 256) × (s.key ≡ head_key (take s.len s.text)) };
}

// The canonical form of an ID by a reading, at the start of `room`. Through `canonical_by`, one call more for each ID, a general check takes about a seventh
// longer.
fn canonical(reading: Reading, id: &[u8], room: &mut [u8; 256]) -> Option<Form>
    ensures { let c = (rules_of reading).canon id.now in (result ≡ form_of c) × (room.new ≡ c ++ drop (length c) room.old) }
{
    match reading {
        Reading::General => canonical_form::canonical(id, room),
        Reading::Profile => profile_form::canonical_profile(id, room),
    }
}

impl CanonicalId {
    // No bytes.
    pub fn new() -> CanonicalId
        ensures { result ≡ [] }
    {
        CanonicalId {
            text: [0; 256],
            len: 0,
            key: 0,
        }
    }

    // The canonical form of an ID by a reading; no bytes where the ID breaks the rules.
    pub fn of(reading: Reading, id: &[u8]) -> CanonicalId
        ensures { result ≡ (rules_of reading).canon id.now }
    {
        let mut form = CanonicalId::new();
        let _ = form.read(reading, id);
        form
    }

    // Takes the canonical form of an ID by a reading; false, and as it was, where the ID breaks the rules.
    pub fn read(&mut self, reading: Reading, id: &[u8]) -> bool
        ensures value { result ≡ not (empty ((rules_of reading).canon id.now)) }
        ensures self_after { self.new ≡ taken ((rules_of reading).canon id.now) self.old }
    {
        match canonical(reading, id, &mut self.text) {
            Some(form) => {
                self.len = form.length;
                self.key = form.key;
                true
            }
            None => false,
        }
    }

    pub fn text(&self) -> &[u8]
        ensures value { result.now ≡ self.now }
        ensures short { length self.now ≤ 256 }
    {
        &self.text[..self.len]
    }

    // The number of its head.
    pub(crate) fn key(&self) -> u64
        ensures { result ≡ head_key self.now }
    {
        self.key
    }

    // How it stands to another. Texts whose numbers differ are in no relation.
    pub(crate) fn relation(&self, other: &CanonicalId) -> Relation
        ensures { (is_same result ≡ same_text self.now other.now) × (is_mixed result ≡ mixed_text self.now other.now) }
    {
        if self.key() != other.key() {
            return Relation::Apart;
        }
        entry_compare::relation_of(self.text(), other.text())
    }

    // Whether an entry with it is compatible with a device. Texts whose numbers differ are not.
    pub(crate) fn fits(&self, device: &CanonicalId) -> bool
        ensures { result ≡ compatible_text self.now device.now }
    {
        self.key() == device.key() && entry_compare::compatible(self.text(), device.text())
    }
}

// Scratch for N canonical IDs.
pub(crate) fn ids_of<const N: usize>() -> [CanonicalId; N]
    requires { N ≤ 64 }
    ensures { result ≡ replicate N [] }
{
    std::array::from_fn(|_| CanonicalId::new())
}

// Scratch for the canonical IDs of a bundle.
pub fn no_ids() -> [CanonicalId; 64]
    ensures { result ≡ replicate 64 [] }
{
    ids_of::<64>()
}
