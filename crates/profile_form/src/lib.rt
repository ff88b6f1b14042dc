// The canonical form of an entry ID by a reading: the general one, or the profile's for AMD's cards.
#![tactic(auto)]

mod parts;
mod table;

ghost use Rattle.std.specs.Prelude.{◌≡◌, ◌<◌, ◌++◌, length, drop};
ghost use Rattle.entry_id.specs.Meaning.{canon};
ghost use Rattle.entry_id.specs.Canonical.{head_key, in_room};
ghost use Rattle.entry_id.specs.Profile.{profile_canon};
ghost use Rattle.entry_id.specs.Rules.{form_in};
ghost use Rattle.entry_id.specs.declared.Reading.TheVariants.{Profile};
ghost use Rattle.canonical_form.specs.Made.{form_of};
ghost use Rattle.profile_form.specs.Table.{table};
ghost use Rattle.profile_form.specs.Parts.{renamed, OursAt, Renameable, Written};

use crate::parts::Card;
use crate::table::Row;
use canonical_form::Form;
use entry_id::Reading;

// The text x with the name p in the place of its processor, to the start of out; nothing above 256 bytes.
// `Written` stands in four contracts: it ties what is lent to what is left and returned, so no type of one value can hold it.
fn rename(x: &[u8], card: Card, p: &[u8], out: &mut [u8]) -> Option<Form>
    requires { Renameable x.now card p.now }
    ensures { Written (in_room 256 (renamed x.now card.at card.stop p.now)) out.old out.new result }
{
    let head = card.at + p.len();
    let length = head + (x.len() - card.stop);
    if 256 < length {
        return None;
    }
    if out.len() < length {
        return None;
    }
    wire_copy::copy_at(out, 0, &x[..card.at]);
    wire_copy::copy_at(out, card.at, p);
    wire_copy::copy_at(out, head, &x[card.stop..]);
    let key = canonical_form::key_behind(card.kind, &out[card.kind..head]);
    Some(Form { length, key })
}

// A canonical form by the general rules, with its key.
#[derive(Clone, Copy)]
struct General<'a> {
    text: &'a [u8],
    key: u64,
    ghost again: { canon text.now ≡ text.now },
    ghost some: { 0 < length text.now },
    ghost keyed: { key ≡ head_key text.now },
}

impl General<'_> {
    // As it is, to the start of out.
    fn keep(&self, out: &mut [u8]) -> Option<Form>
        ensures { Written self.now.text.now out.old out.new result }
    {
        let length = self.text.len();
        if out.len() < length {
            return None;
        }
        wire_copy::copy_at(out, 0, self.text);
        Some(Form {
            length,
            key: self.key,
        })
    }

    // The profile's form of that of one of our cards: the table t knows the processor, and the primary is written.
    fn ours(&self, t: &[Row], card: Card, out: &mut [u8]) -> Option<Form>
        requires { (t.now ≡ table) × OursAt self.now.text.now card }
        ensures { Written (profile_canon self.now.text.now) out.old out.new result }
    {
        let x = self.text;
        let k = table::row_of(t, &x[card.at..card.stop])?;
        let row = &t[k];
        if !parts::all_supported(x, card.stop, row.marks) {
            return None;
        }
        if row.primary == k {
            return self.keep(out);
        }
        rename(x, card, table::name_at(t, row.primary), out)
    }

    // The profile's form.
    fn profile(&self, out: &mut [u8]) -> Option<Form>
        ensures { Written (profile_canon self.now.text.now) out.old out.new result }
    {
        let x = self.text;
        let Some(arch) = parts::past_arch(x) else {
            return self.keep(out);
        };
        let vendor = parts::past_dash(x, arch);
        let system = parts::past_dash(x, vendor);
        let at = parts::past_dash(x, system);
        let stop = parts::seek(x, at, b':');
        // No processor is an empty one: an Option would come of the same comparison.
        if stop == at {
            return self.keep(out);
        }
        let card = Card {
            kind: arch - 8,
            at,
            stop,
        };
        self.ours(&table::PROCESSORS, card, out)
    }
}

// The canonical form of id by the profile's rules, at the start of out; none, and out as it was, where id breaks them or the form does not fit.
pub fn canonical_profile(id: &[u8], out: &mut [u8]) -> Option<Form>
    ensures { let c = form_in Profile (length out.old) id.now in (result ≡ form_of c) × (out.new ≡ c ++ drop (length c) out.old) }
{
    let mut form = [0u8; 256];
    let made = canonical_form::canonical(id, &mut form)?;
    let general = General {
        text: &form[..made.length],
        key: made.key,
    };
    general.profile(out)
}

// The canonical form of id by a reading.
// The reading is told apart here, since the calls take it as a value.
pub fn canonical_by(reading: Reading, id: &[u8], out: &mut [u8]) -> Option<Form>
    ensures { let c = form_in reading (length out.old) id.now in (result ≡ form_of c) × (out.new ≡ c ++ drop (length c) out.old) }
{
    match reading {
        Reading::Profile => canonical_profile(id, out),
        Reading::General => canonical_form::canonical(id, out),
    }
}
