// The calls that write bundles: normalising, and the bundle writer.
// Lengths are cast to words by `as`: both have 64 bits here, and std has no `From` between them.
#![tactic(auto)]

ghost use Rattle.std.specs.Prelude.{◌≡◌, ℕ, List, [], ◌+◌, ◌<◌, ◌≤◌, ◌∷◌, length};
ghost use Rattle.wire.specs.Bytes.{overwrite};
ghost use Rattle.wire.specs.Order.{insert_by, sort_by};
ghost use Rattle.wire.specs.Stop.{over, output};
ghost use Rattle.entry_id.specs.Rules.{id_rules, rules_of};
ghost use Rattle.bundle.specs.Table.{count};
ghost use Rattle.bundle.specs.Entry.{image_of};
ghost use Rattle.bundle.specs.Records.{row_of};
ghost use Rattle.bundle.specs.Results.{written_of};
ghost use Rattle.bundle.specs.Layout.{row_bytes, table, images, packed, packed_end, packed_length, encode};
ghost use Rattle.bundle.specs.Normal.{by_id, room_stop, answer, normalise, normalised};
ghost use Rattle.bundle.specs.Writer.{write, written_to};
ghost use Rattle.normal_form.specs.Code.{id_of, values, listed, first_given, Short, Measured};

use bundle::EntryRecord;
use bundle_reader::CanonicalId;
use entry_id::Reading;
use wire::{Reason, Refusal};

// The most bytes of a bundle.
const LIMIT: usize = 1073741824;

// An entry: its canonical ID and its image.
#[derive(Clone, Copy)]
pub struct Entry<'a> {
    pub id: &'a [u8],
    pub image: &'a [u8],
}

// ---- the order of entries

// The first entry goes up past those before which it does not stand: behind it they are in order.
fn sift(entries: &mut [Entry])
    ensures { (e : Entry) → (es : List Entry) → entries.old ≡ e ∷ es → entries.new ≡ insert_by id_of e es }
{
    for i in 1..entries.len() {
        if wire_read::comes_before(entries[i - 1].id, entries[i].id) {
            break;
        }
        entries.swap(i - 1, i);
    }
}

// Puts entries in rising order of their IDs. Those with one ID change places. It inserts one after the other: there are few, and most bundles have them in order.
pub fn rising_order(entries: &mut [Entry])
    ensures { entries.new ≡ sort_by id_of entries.old }
{
    let count = entries.len();
    for i in (0..count).rev() {
        sift(&mut entries[i..]);
    }
}

// ---- the entries of records

// An entry of no bytes, for places that are not filled yet.
pub const NO_ENTRY: Entry<'static> = Entry {
    id: b"",
    image: b"",
};

// The bytes of an image, as far as they lie inside.
fn image_of(src: &[u8], row: EntryRecord) -> &[u8]
    ensures { result.now ≡ image_of src.now (row_of [] row) }
{
    let rest = &src[row.image_start.min(src.len())..];
    &rest[..row.image_len.min(rest.len())]
}

// Lists the entries of records in the first places, as many as there are IDs and places for, and returns how many these are. Their canonical IDs stand beside
// the records, and their images lie in `src`.
fn list_entries<'a>(
    src: &'a [u8],
    records: &[EntryRecord],
    ids: &'a [CanonicalId],
    entries: &mut [Entry<'a>],
) -> usize
    ensures count { result ≡ listed records.now ids.now (length entries.old) }
    ensures entries_after { values entries.new ≡ over (first_given (listed records.now ids.now (length entries.old)) src.now records.now ids.now) (values entries.old) }
{
    let count = records.len().min(ids.len()).min(entries.len());
    for i in 0..count {
        entries[i] = Entry {
            id: ids[i].text(),
            image: image_of(src, records[i]),
        };
    }
    count
}

// The same in rising order of the IDs.
pub fn sorted_entries<'a>(
    src: &'a [u8],
    records: &[EntryRecord],
    ids: &'a [CanonicalId],
    entries: &mut [Entry<'a>],
)
    ensures { values entries.new ≡ over (sort_by by_id (first_given (listed records.now ids.now (length entries.old)) src.now records.now ids.now)) (values entries.old) }
{
    let count = list_entries(src, records, ids, entries);
    rising_order(&mut entries[..count]);
}

// ---- lengths

// Where the table of some entries ends, and the length of their packed form.
#[derive(Clone, Copy)]
struct Lengths {
    end: usize,
    all: usize,
}

fn measure(entries: &[Entry]) -> Result<Lengths, Refusal>
    requires { Short entries.now }
    ensures { Measured (values entries.now) result }
{
    let mut end = 32;
    let mut all: usize = 32;
    for entry in entries {
        let row = 24 + entry.id.len();
        end += row;
        all = (all + row).saturating_add(entry.image.len());
        if LIMIT < all {
            return Err(Reason::Big.at(0));
        }
    }
    Ok(Lengths { end, all })
}

// ---- the bytes

// A row at `at`.
fn put_row(out: &mut [u8], at: usize, offset: usize, entry: Entry)
    requires { at + 24 + length entry.id.now ≤ length out.old }
    ensures { out.new ≡ overwrite out.old at (row_bytes (record { offset = offset; size = length entry.entry.image.now; id = entry.entry.id.now })) }
{
    wire_write::put_word8(out, at, offset as u64);
    wire_write::put_word8(out, at + 8, entry.image.len() as u64);
    wire_write::put_word8(out, at + 16, entry.id.len() as u64);
    wire_copy::copy_at(out, at + 24, entry.id);
}

// The rows of entries, from 32 on: the images are to lie one after another from `base` on.
fn put_table(entries: &[Entry], base: usize, out: &mut [u8])
    requires { (packed_end (values entries.now) ≤ length out.old) × (base + length (images (values entries.now)) ≤ length out.old) }
    ensures { out.new ≡ overwrite out.old 32 (table (packed base (values entries.now))) }
{
    let mut at = 32;
    let mut offset = base;
    for entry in entries {
        put_row(out, at, offset, *entry);
        at += 24 + entry.id.len();
        offset += entry.image.len();
    }
}

// The images of entries, one after another from `base` on.
fn put_images(entries: &[Entry], base: usize, out: &mut [u8])
    requires { base + length (images (values entries.now)) ≤ length out.old }
    ensures { out.new ≡ overwrite out.old base (images (values entries.now)) }
{
    let mut at = base;
    for entry in entries {
        wire_copy::copy_at(out, at, entry.image);
        at += entry.image.len();
    }
}

// The packed form of entries whose table ends at `base`, over `out`.
fn put_bundle(entries: &[Entry], base: usize, out: &mut [u8])
    requires { (base ≡ packed_end (values entries.now)) × (packed_length (values entries.now) ≤ length out.old) }
    ensures { out.new ≡ over (encode (values entries.now)) out.old }
{
    wire_copy::copy_at(out, 0, b"__CLANG_OFFLOAD_BUNDLE__");
    wire_write::put_word8(out, 24, entries.len() as u64);
    put_table(entries, base, out);
    put_images(entries, base, out);
}

// The packed form of entries over `out`, and its length.
fn write_entries(entries: &[Entry], out: &mut [u8]) -> Result<usize, Refusal>
    requires { Short entries.now }
    ensures value { written_of result ≡ answer (room_stop (packed_length (values entries.now)) (length out.old)) (packed_length (values entries.now)) }
    ensures out_after { out.new ≡ output (room_stop (packed_length (values entries.now)) (length out.old)) (encode (values entries.now)) out.old }
{
    let lengths = measure(entries)?;
    if out.len() < lengths.all {
        return Err(Reason::Room.at(0));
    }
    put_bundle(entries, lengths.end, out);
    Ok(lengths.all)
}

// ---- normalising

// In scratch: its entries go to `entries`.
fn normalise_in<'a>(
    reading: Reading,
    bundle: &'a [u8],
    ids: &'a mut [CanonicalId; 64],
    entries: &mut [Entry<'a>],
    out: &mut [u8],
) -> Result<usize, Refusal>
    requires { count bundle.now ≤ 64 → count bundle.now ≤ length entries.old }
    ensures value { written_of result ≡ normalise (rules_of reading) bundle.now (length out.old) }
    ensures out_after { out.new ≡ normalised (rules_of reading) bundle.now out.old }
{
    // By reference, so that the rows are not copied.
    match &bundle_reader::examine(reading, bundle, ids) {
        Ok(examined) => {
            let count = examined.count;
            sorted_entries(bundle, &examined.rows[..count], ids, entries);
            write_entries(&entries[..count], out)
        }
        Err(refusal) => Err(*refusal),
    }
}

// The normal form of a bundle by a reading of its IDs, over `out`, and its length. Few entries need few places.
pub fn normalise_by(reading: Reading, bundle: &[u8], out: &mut [u8]) -> Result<usize, Refusal>
    ensures value { written_of result ≡ normalise (rules_of reading) bundle.now (length out.old) }
    ensures out_after { out.new ≡ normalised (rules_of reading) bundle.now out.old }
{
    let mut ids = bundle_reader::no_ids();
    if bundle_reader::is_few(bundle) {
        let mut few = [NO_ENTRY; 8];
        return normalise_in(reading, bundle, &mut ids, &mut few, out);
    }
    let mut entries = [NO_ENTRY; 64];
    normalise_in(reading, bundle, &mut ids, &mut entries, out)
}

// The normal form of a bundle by the general reading, over `out`, and its length.
// The name of the definition, of the docs and of the C call: most callers name no reading.
pub fn normalise(bundle: &[u8], out: &mut [u8]) -> Result<usize, Refusal>
    ensures value { written_of result ≡ normalise id_rules bundle.now (length out.old) }
    ensures out_after { out.new ≡ normalised id_rules bundle.now out.old }
{
    normalise_by(Reading::General, bundle, out)
}

// ---- the bundle writer

// The bundle of a lent list of records, whose IDs lie in `ids` and whose images lie in `images`, over `out`, and its length.
pub fn write_bundle(
    records: &[EntryRecord],
    ids: &[u8],
    images: &[u8],
    out: &mut [u8],
) -> Result<usize, Refusal>
    ensures value { written_of result ≡ write id_rules (length records.now) records.now ids.now images.now (length out.old) }
    ensures out_after { out.new ≡ written_to id_rules (length records.now) records.now ids.now images.now out.old }
{
    let mut forms = bundle_reader::no_ids();
    bundle_reader::examine_records(ids, records, images.len(), &mut forms)?;
    let mut entries = [NO_ENTRY; 64];
    let count = list_entries(images, records, &forms, &mut entries);
    write_entries(&entries[..count], out)
}
