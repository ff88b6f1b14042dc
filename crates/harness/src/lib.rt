// The reader and both writers, each call giving numbers alone, for the comparison with the second program: `harness_c` exports them as C calls.
// include/offload.h has none of them.
// Numbers are cast by `as`: `usize` and `u64` both have 64 bits here, and std has no `From` between them.
#![tactic(auto)]

ghost use Rattle.std.specs.Prelude.{◌≡◌, ◌%◌, length};
ghost use Rattle.entry_id.specs.Rules.{id_rules};
ghost use Rattle.bundle.specs.Writer.{write, written_to};
ghost use Rattle.offload_binary.specs.Reader.{next};
ghost use Rattle.offload_binary.specs.Writer.{write as write_binary};
ghost use Rattle.harness.specs.Fields.{field, bundle_field, binary_field, tags, step_numbers};

use bundle::{EntryRecord, Written};
use offload_binaries::Reader;
use offload_binary::{Cursor, Step, StringPair, Tags};

// Number 0, 1 or 2 of what a writer returns, as C asks for it: the number, the place or the length.
fn field_of(number: usize, place: usize, length: usize, k: usize) -> u64
    ensures { result ≡ field k number place length }
{
    if k == 0 {
        return number as u64;
    }
    if k == 1 {
        return place as u64;
    }
    length as u64
}

// One for each writer: their records are of two crates, as the definitions `bundle_field` and `binary_field` are of two records.
fn bundle_field(written: Written, k: usize) -> u64
    ensures { result ≡ bundle_field k written }
{
    field_of(written.number, written.place, written.length, k)
}

// Writes a bundle, and returns one number of what the bundle writer returns.
pub fn offload_write_bundle_field(
    records: &[EntryRecord],
    ids: &[u8],
    images: &[u8],
    out: &mut [u8],
    k: usize,
) -> u64
    ensures { (result ≡ bundle_field k (write id_rules (length records.now) records.now ids.now images.now (length out.old))) × (out.new ≡ written_to id_rules (length records.now) records.now ids.now images.now out.old) }
{
    bundle_field(
        Written::from(normal_form::write_bundle(records, ids, images, out)),
        k,
    )
}

fn binary_field(written: offload_binary::Written, k: usize) -> u64
    ensures { result ≡ binary_field k written }
{
    field_of(written.number, written.place, written.len, k)
}

// Writes a binary, and returns one number of what the binary writer returns.
pub fn offload_write_binary_field(
    image_kind: u64,
    offload_kind: u64,
    flags: u32,
    image: &[u8],
    pairs: &[StringPair],
    strings: &[u8],
    out: &mut [u8],
    k: usize,
) -> u64
    ensures { (result ≡ binary_field k (write_binary (tags image_kind offload_kind flags) image.now pairs.now strings.now out.old).answer) × (out.new ≡ (write_binary (tags image_kind offload_kind flags) image.now pairs.now strings.now out.old).out) }
{
    let tags = Tags {
        image_kind,
        offload_kind,
        flags,
    };
    let written = offload_binary_writer::write_binary(tags, image, pairs, strings, out);
    binary_field(written.into(), k)
}

// What the next call of a reader at this cursor answers, and where the reader then stands.
fn read_next(bytes: &[u8], cursor: Cursor) -> Step
    ensures { result ≡ next bytes.now cursor }
{
    let mut reader = Reader { bytes, cursor };
    let answer = reader.next().into();
    Step {
        answer,
        cursor: reader.cursor,
    }
}

// What a reader at this cursor answers next, with string pair i alone, and where the reader then stands.
pub fn offload_binaries_next(
    binaries: &[u8],
    position: usize,
    taken: usize,
    i: usize,
    out: &mut [u64; 16],
)
    ensures { out.new ≡ step_numbers (i % 32) (next binaries.now (record { position = position; taken = taken })) }
{
    let cursor = Cursor { position, taken };
    let step = read_next(binaries, cursor);
    let binary = step.answer.binary;
    let k = i % 32;
    let pair = binary.pairs[k];
    *out = [
        step.answer.number as u64,
        step.answer.place as u64,
        binary.start as u64,
        binary.size as u64,
        binary.image_kind,
        binary.offload_kind,
        binary.flags,
        binary.image.start as u64,
        binary.image.len as u64,
        binary.count as u64,
        pair.key.start as u64,
        pair.key.len as u64,
        pair.text.start as u64,
        pair.text.len as u64,
        step.cursor.position as u64,
        step.cursor.taken as u64,
    ];
}
