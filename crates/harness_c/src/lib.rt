// The calls of `harness` as C calls, under the same names.
#![tactic(auto)]

ghost use Rattle.std.specs.Prelude.{◌≡◌, ◌%◌, length};
ghost use Rattle.entry_id.specs.Rules.{id_rules};
ghost use Rattle.bundle.specs.Writer.{write, written_to};
ghost use Rattle.offload_binary.specs.Reader.{next};
ghost use Rattle.offload_binary.specs.Writer.{write as write_binary};
ghost use Rattle.harness.specs.Fields.{bundle_field, binary_field, tags, step_numbers};

use bundle::EntryRecord;
use offload_binary::StringPair;

// Writes a bundle, and returns one number of what the bundle writer returns.
#[unsafe(no_mangle)]
pub extern "C" fn offload_write_bundle_field(
    records: &[EntryRecord],
    ids: &[u8],
    images: &[u8],
    out: &mut [u8],
    k: usize,
) -> u64
    ensures { (result ≡ bundle_field k (write id_rules (length records.now) records.now ids.now images.now (length out.old))) × (out.new ≡ written_to id_rules (length records.now) records.now ids.now images.now out.old) }
{
    harness::offload_write_bundle_field(records, ids, images, out, k)
}

// Writes a binary, and returns one number of what the binary writer returns.
#[unsafe(no_mangle)]
pub extern "C" fn offload_write_binary_field(
    image_kind: u64,
    offload_kind: u64,
    flags: u32,
    image: &[u8],
    pairs: &[StringPair],
    strings: &[u8],
    out: &mut [u8],
    k: usize,
) -> u64
    ensures { (result ≡ binary_field k (write_binary (tags image_kind offload_kind flags) image.now pairs.now strings.now out.old).answer) × (out.new ≡ (write_binary (tags image_kind offload_kind flags) image.now pairs.now strings.now out.old).out) }
{
    harness::offload_write_binary_field(
        image_kind,
        offload_kind,
        flags,
        image,
        pairs,
        strings,
        out,
        k,
    )
}

// What a reader at this cursor answers next, with string pair i alone, and where the reader then stands.
#[unsafe(no_mangle)]
pub extern "C" fn offload_binaries_next(
    binaries: &[u8],
    position: usize,
    taken: usize,
    i: usize,
    out: &mut [u64; 16],
)
    ensures { out.new ≡ step_numbers (i % 32) (next binaries.now (record { position = position; taken = taken })) }
{
    harness::offload_binaries_next(binaries, position, taken, i, out);
}
