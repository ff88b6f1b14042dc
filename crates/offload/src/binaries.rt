// The C calls on offload binaries.
ghost use Rattle.std.specs.Prelude.{◌≡◌, length};
ghost use Rattle.offload_binary.specs.Recovery.{recover, copied_to, skipped_to};

use offload_binary::Recovered;

#[unsafe(no_mangle)]
pub extern "C" fn offload_recover_number(
    binaries: &[u8],
    out: &mut [u8],
    spans: &mut [[u64; 2]],
) -> u64
    ensures value { result ≡ (recover binaries.now (length out.old) (length spans.old)).number }
    ensures out_after { out.new ≡ copied_to binaries.now (length spans.old) out.old }
    ensures spans_after { spans.new ≡ skipped_to binaries.now (length out.old) spans.old }
{
    Recovered::from(offload_binary_recovery::recover(binaries, out, spans)).number as u64
}

#[unsafe(no_mangle)]
pub extern "C" fn offload_recover_place(
    binaries: &[u8],
    out: &mut [u8],
    spans: &mut [[u64; 2]],
) -> u64
    ensures value { result ≡ (recover binaries.now (length out.old) (length spans.old)).place }
    ensures out_after { out.new ≡ copied_to binaries.now (length spans.old) out.old }
    ensures spans_after { spans.new ≡ skipped_to binaries.now (length out.old) spans.old }
{
    Recovered::from(offload_binary_recovery::recover(binaries, out, spans)).place as u64
}

#[unsafe(no_mangle)]
pub extern "C" fn offload_recover_length(
    binaries: &[u8],
    out: &mut [u8],
    spans: &mut [[u64; 2]],
) -> u64
    ensures value { result ≡ (recover binaries.now (length out.old) (length spans.old)).length }
    ensures out_after { out.new ≡ copied_to binaries.now (length spans.old) out.old }
    ensures spans_after { spans.new ≡ skipped_to binaries.now (length out.old) spans.old }
{
    Recovered::from(offload_binary_recovery::recover(binaries, out, spans)).length as u64
}

#[unsafe(no_mangle)]
pub extern "C" fn offload_recover_spans(
    binaries: &[u8],
    out: &mut [u8],
    spans: &mut [[u64; 2]],
) -> u64
    ensures value { result ≡ (recover binaries.now (length out.old) (length spans.old)).spans }
    ensures out_after { out.new ≡ copied_to binaries.now (length spans.old) out.old }
    ensures spans_after { spans.new ≡ skipped_to binaries.now (length out.old) spans.old }
{
    Recovered::from(offload_binary_recovery::recover(binaries, out, spans)).spans as u64
}
