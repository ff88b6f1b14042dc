// What `make bench` times and include/offload.h does not have, as C calls.
#![tactic(auto)]

ghost use Rattle.std.specs.Prelude.{◌≡◌, ◌++◌, length, drop};
ghost use Rattle.wire.specs.Bytes.{before};
ghost use Rattle.entry_id.specs.Canonical.{canonical_in};
ghost use Rattle.offload_binary.specs.Reader.{next};

use offload_binary::Cursor;

// Whether `a` stands before `b` in byte order, a prefix first.
#[unsafe(no_mangle)]
pub extern "C" fn offload_comes_before(a: &[u8], b: &[u8]) -> bool
    ensures { result ≡ before a.now b.now }
{
    wire_read::comes_before(a, b)
}

// The length of the canonical form of an ID, which is written to the start of `out`; 0 where the ID breaks the rules or its form does not fit.
#[unsafe(no_mangle)]
pub extern "C" fn offload_canonical_length(id: &[u8], out: &mut [u8]) -> u64
    ensures value { result ≡ length (canonical_in (length out.old) id.now) }
    ensures out_after { out.new ≡ canonical_in (length out.old) id.now ++ drop result out.old }
{
    match canonical_form::canonical(id, out) {
        Some(form) => form.length as u64,
        None => 0,
    }
}

// The size of the binary that a reader hands back next, or 0.
#[unsafe(no_mangle)]
pub extern "C" fn offload_binaries_next_size(binaries: &[u8], position: usize, taken: usize) -> u64
    ensures { result ≡ (next binaries.now (record { position = position; taken = taken })).answer.binary.size }
{
    match offload_binaries::next_at(binaries, Cursor { position, taken }) {
        Ok((binary, _)) => binary.size as u64,
        Err(_) => 0,
    }
}
