// Offload binaries, one after another, by a reader.
// What is expected is given as numbers, since each case is an equation with a definition, which answers numbers.
ghost use Rattle.std.specs.Prelude.{◌≡◌, [], ◌∷◌, ◌%◌};
ghost use Rattle.offload_binary.specs.Reader.{next, answer};
ghost use Rattle.harness.specs.Fields.{step_numbers};

use offload_binaries::Reader;
use offload_binary::Answer;

// samples/binaries/small.bin, by LLVM.
const SMALL: [u8; 288] =
    *b"\x10\xff\x10\xad\x01\0\0\0\x90\0\0\0\0\0\0\0\x20\0\0\0\0\0\0\0\x28\0\0\0\0\0\0\0\
    \0\0\x03\0\0\0\0\0\x48\0\0\0\0\0\0\0\x02\0\0\0\0\0\0\0\x90\0\0\0\0\0\0\0\0\0\0\0\0\0\0\0\
    \x69\0\0\0\0\0\0\0\x87\0\0\0\0\0\0\0\x6e\0\0\0\0\0\0\0\x75\0\0\0\0\0\0\0\
    \0arch\0triple\0amdgcn-amd-amdhsa\0gfx906\0\0\0\
    \x10\xff\x10\xad\x01\0\0\0\x90\0\0\0\0\0\0\0\x20\0\0\0\0\0\0\0\x28\0\0\0\0\0\0\0\
    \0\0\x02\0\0\0\0\0\x48\0\0\0\0\0\0\0\x02\0\0\0\0\0\0\0\x90\0\0\0\0\0\0\0\0\0\0\0\0\0\0\0\
    \x69\0\0\0\0\0\0\0\x89\0\0\0\0\0\0\0\x6e\0\0\0\0\0\0\0\x75\0\0\0\0\0\0\0\
    \0arch\0triple\0nvptx64-nvidia-cuda\0sm_70\0\0";

// "Binary with no strings and no image: 72 bytes."
pub(crate) const BARE: [u8; 72] =
    *b"\x10\xff\x10\xad\x01\0\0\0\x48\0\0\0\0\0\0\0\x20\0\0\0\0\0\0\0\x28\0\0\0\0\0\0\0\
    \0\0\0\0\0\0\0\0\x48\0\0\0\0\0\0\0\0\0\0\0\0\0\0\0\x48\0\0\0\0\0\0\0\0\0\0\0\0\0\0\0";

fn expect_numbers(got: [u64; 16], wanted: [u64; 16])
    requires { got ≡ wanted }
{
    for k in 0..16 {
        check::expect(got[k] == wanted[k]);
    }
}

// What a reader at this cursor answers next: number and place; first byte, size, kinds, flags, image and number of pairs; pair i; and the cursor then.
// The 16 numbers are one list, as the definition `step_numbers` has them and the call gives them.
fn expect_next(binaries: &[u8], position: usize, taken: usize, i: usize, numbers: [u64; 16])
    requires { step_numbers (i % 32) (next binaries.now (record { position = position; taken = taken })) ≡ numbers }
{
    let mut got = [0u64; 16];
    harness::offload_binaries_next(binaries, position, taken, i, &mut got);
    expect_numbers(got, numbers);
}

// The reader gives this number, at its position, and stays where it is.
fn expect_stop(binaries: &[u8], position: usize, taken: usize, number: usize)
    requires { step_numbers 0 (next binaries.now (record { position = position; taken = taken })) ≡ number ∷ position ∷ 0 ∷ 0 ∷ 0 ∷ 0 ∷ 0 ∷ 0 ∷ 0 ∷ 0 ∷ 0 ∷ 0 ∷ 0 ∷ 0 ∷ position ∷ taken ∷ [] }
{
    let p = position as u64;
    expect_next(
        binaries,
        position,
        taken,
        0,
        [
            number as u64,
            p,
            0,
            0,
            0,
            0,
            0,
            0,
            0,
            0,
            0,
            0,
            0,
            0,
            p,
            taken as u64,
        ],
    );
}

// Two binaries, read from first to last.
pub(crate) fn read_on() {
    expect_next(
        &SMALL,
        0,
        0,
        0,
        [0, 0, 0, 144, 0, 3, 0, 144, 0, 2, 105, 4, 135, 6, 144, 1],
    );
    expect_next(
        &SMALL,
        144,
        1,
        1,
        [0, 0, 144, 144, 0, 2, 0, 288, 0, 2, 254, 6, 261, 19, 288, 2],
    );
}

// END; "Empty input: .. END as a strip". The cursor stays, so asking again gives the same.
pub(crate) fn ends() {
    expect_stop(&SMALL, 288, 2, 19);
    expect_stop(b"", 0, 0, 19);
}

// "Binary with no strings and no image: 72 bytes." MANY at the same bytes.
pub(crate) fn bare() {
    expect_next(
        &BARE,
        0,
        63,
        0,
        [0, 0, 0, 72, 0, 0, 0, 72, 0, 0, 0, 0, 0, 0, 72, 64],
    );
    expect_stop(&BARE, 0, 64, 18);
}

// HEAD.
pub(crate) fn heads() {
    // version 2
    expect_stop(
        b"\x10\xff\x10\xad\x02\0\0\0\x48\0\0\0\0\0\0\0\x20\0\0\0\0\0\0\0\x28\0\0\0\0\0\0\0\
        \0\0\0\0\0\0\0\0\x48\0\0\0\0\0\0\0\0\0\0\0\0\0\0\0\x48\0\0\0\0\0\0\0\0\0\0\0\0\0\0\0",
        0,
        0,
        13,
    );
    // 31 bytes left
    expect_stop(&BARE, 41, 0, 13);
}

// SPAN and KIND.
pub(crate) fn spans() {
    // one byte more than there is
    expect_stop(
        b"\x10\xff\x10\xad\x01\0\0\0\x49\0\0\0\0\0\0\0\x20\0\0\0\0\0\0\0\x28\0\0\0\0\0\0\0\
        \0\0\0\0\0\0\0\0\x48\0\0\0\0\0\0\0\0\0\0\0\0\0\0\0\x48\0\0\0\0\0\0\0\0\0\0\0\0\0\0\0",
        0,
        0,
        14,
    );
    // an entry that passes the size
    expect_stop(
        b"\x10\xff\x10\xad\x01\0\0\0\x48\0\0\0\0\0\0\0\x21\0\0\0\0\0\0\0\x28\0\0\0\0\0\0\0\
        \0\0\0\0\0\0\0\0\x48\0\0\0\0\0\0\0\0\0\0\0\0\0\0\0\x48\0\0\0\0\0\0\0\0\0\0\0\0\0\0\0",
        0,
        0,
        14,
    );
    // offload kind 4
    expect_stop(
        b"\x10\xff\x10\xad\x01\0\0\0\x48\0\0\0\0\0\0\0\x20\0\0\0\0\0\0\0\x28\0\0\0\0\0\0\0\
        \0\0\x04\0\0\0\0\0\x48\0\0\0\0\0\0\0\0\0\0\0\0\0\0\0\x48\0\0\0\0\0\0\0\0\0\0\0\0\0\0\0",
        0,
        0,
        15,
    );
}

// STRINGS and IMAGE.
pub(crate) fn bodies() {
    // empty keys
    expect_stop(
        b"\x10\xff\x10\xad\x01\0\0\0\x68\0\0\0\0\0\0\0\x20\0\0\0\0\0\0\0\x28\0\0\0\0\0\0\0\
        \0\0\0\0\0\0\0\0\x48\0\0\0\0\0\0\0\x02\0\0\0\0\0\0\0\x68\0\0\0\0\0\0\0\0\0\0\0\0\0\0\0\
        \x23\0\0\0\0\0\0\0\x23\0\0\0\0\0\0\0\x23\0\0\0\0\0\0\0\x23\0\0\0\0\0\0\0",
        0,
        0,
        16,
    );
    // an image of one byte at the end
    expect_stop(
        b"\x10\xff\x10\xad\x01\0\0\0\x48\0\0\0\0\0\0\0\x20\0\0\0\0\0\0\0\x28\0\0\0\0\0\0\0\
        \0\0\0\0\0\0\0\0\x48\0\0\0\0\0\0\0\0\0\0\0\0\0\0\0\x48\0\0\0\0\0\0\0\x01\0\0\0\0\0\0\0",
        0,
        0,
        17,
    );
    // an image that would end past the highest number
    expect_stop(
        b"\x10\xff\x10\xad\x01\0\0\0\x48\0\0\0\0\0\0\0\x20\0\0\0\0\0\0\0\x28\0\0\0\0\0\0\0\
        \0\0\0\0\0\0\0\0\x48\0\0\0\0\0\0\0\0\0\0\0\0\0\0\0\x48\0\0\0\0\0\0\0\xff\xff\xff\xff\xff\xff\xff\xff",
        0,
        0,
        17,
    );
}

// What a reader that was opened answers when it is asked a second time.
fn second_answer(bytes: &[u8]) -> Answer
    ensures { result ≡ answer bytes.now 1 }
{
    let mut reader = Reader::open(bytes);
    let _first = reader.next();
    reader.next().into()
}

// Number and place of the second answer; first byte and size of its binary.
fn expect_second(bytes: &[u8], number: usize, place: usize, start: usize, size: usize)
    requires { ((answer bytes.now 1).number ≡ number) × ((answer bytes.now 1).place ≡ place) × ((answer bytes.now 1).binary.start ≡ start) × ((answer bytes.now 1).binary.size ≡ size) }
{
    let r = second_answer(bytes);
    let binary = r.binary;
    check::expect((r.number == number) & (r.place == place));
    check::expect((binary.start == start) & (binary.size == size));
}

// The second of two; END after one; END, asked again.
pub(crate) fn seconds() {
    expect_second(&SMALL, 0, 0, 144, 144);
    expect_second(&BARE, 19, 72, 0, 0);
    expect_second(b"", 19, 0, 0, 0);
}
