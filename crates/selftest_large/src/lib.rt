// Inputs that are too large to compute on in the prover: what the library answers is printed, and held to the file `stdout`.
// Each record's numbers are printed as `stdout` has them: Display would have to stand in the library's crates, for this test alone.
// They are cast to words by `as`: both have 64 bits here, and std has no `From` between them.
#![tactic(auto)]

ghost use Rattle.std.specs.Prelude.{◌<◌, ◌≤◌, length, IfOk};

use bundle::{Checked, Picked, PickedEach, Written};
use offload_binary::{Part, Recovered};
use std::io;
use std::io::Read;

// A sum over the bytes that depends on their order.
fn sum_of(s: &[u8]) -> u64 {
    let mut sum: u64 = 1;
    for byte in s {
        sum = (sum * 31 + u64::from(*byte)) % 4294967291;
    }
    sum
}

fn print(rt: &impl Print, number: u64) -> io::Result<()> {
    print!(rt; " {number}")
}

fn print_check(rt: &impl Print, bundle: &[u8]) -> io::Result<()> {
    let r = Checked::from(bundle_reader::check(bundle));
    print!(rt; "check")?;
    print(rt, r.number as u64)?;
    print(rt, r.place as u64)?;
    print(rt, r.count as u64)?;
    println!(rt)
}

fn print_pick(rt: &impl Print, bundle: &[u8], device: &[u8]) -> io::Result<()> {
    let r = Picked::from(bundle_reader::pick(bundle, device));
    print!(rt; "pick")?;
    print(rt, r.number as u64)?;
    print(rt, r.place as u64)?;
    print(rt, r.index as u64)?;
    print(rt, r.position)?;
    print(rt, r.size)?;
    println!(rt)
}

fn print_slot(rt: &impl Print, slot: [u64; 4]) -> io::Result<()> {
    print!(rt; "slot")?;
    print(rt, slot[0])?;
    print(rt, slot[1])?;
    print(rt, slot[2])?;
    print(rt, slot[3])?;
    println!(rt)
}

fn print_slots(rt: &impl Print, slots: &[[u64; 4]]) -> io::Result<()> {
    for slot in slots {
        print_slot(rt, *slot)?;
    }
    Ok(())
}

// The pick for each of several device names: what is returned, and the slots then.
fn print_each(
    rt: &impl Print,
    bundle: &[u8],
    buffer: &[u8],
    names: &[[u64; 2]],
    slots: &mut [[u64; 4]],
) -> io::Result<()> {
    let r = PickedEach::from(bundle_reader::pick_each(bundle, buffer, names, slots));
    print!(rt; "pick each")?;
    print(rt, r.number as u64)?;
    print(rt, r.place as u64)?;
    print(rt, r.slots as u64)?;
    print(rt, r.word)?;
    print(rt, r.taken as u64)?;
    println!(rt)?;
    print_slots(rt, slots)
}

// Normalises into `out`: what is returned, and the sum of the output then.
fn print_normal(rt: &impl Print, bundle: &[u8], out: &mut [u8]) -> io::Result<usize> {
    let r = Written::from(normal_form::normalise(bundle, out));
    print!(rt; "normalise")?;
    print(rt, r.number as u64)?;
    print(rt, r.place as u64)?;
    print(rt, r.length as u64)?;
    print(rt, sum_of(out))?;
    println!(rt)?;
    Ok(r.length)
}

// Entry i of 64, in falling order of their IDs: `host-a-b-c63` to `host-a-b-c00`, each with an image of one byte, the last of its ID.
fn put_entry(out: &mut [u8], i: usize)
    requires { i < 64 }
{
    let at = 32 + 36 * i;
    let image = 2336 + i;
    let left = 63 - i;
    let digits = [b'0' + (left / 10) as u8, b'0' + (left % 10) as u8];
    wire_copy::copy_at(
        out,
        at,
        b"\0\0\0\0\0\0\0\0\x01\0\0\0\0\0\0\0\x0c\0\0\0\0\0\0\0host-a-b-c",
    );
    wire_write::put_word8(out, at, image as u64);
    wire_copy::copy_at(out, at + 34, &digits);
    wire_copy::copy_at(out, image, &digits[1..]);
}

fn put_entries(out: &mut [u8]) {
    for i in 0..64 {
        put_entry(out, i);
    }
}

// "Count 64 with a whole table is read; 65 is COUNT."
pub fn sixty_four(rt: &impl Print) -> io::Result<()> {
    let mut bundle = [b'.'; 2400];
    wire_copy::copy_at(&mut bundle, 0, b"__CLANG_OFFLOAD_BUNDLE__");
    wire_write::put_word8(&mut bundle, 24, 64);
    put_entries(&mut bundle);
    print_check(rt, &bundle)?;
    print_normal(rt, &bundle, &mut [b'.'; 2530])?;
    print_pick(rt, &bundle, b"host-a-b-c17")?;
    // the first entry and the last
    print_each(
        rt,
        &bundle,
        b"host-a-b-c63host-a-b-c00host-a-b-c64",
        &[[0, 12], [12, 12], [24, 12]],
        &mut [[1, 2, 3, 4]; 4],
    )?;
    wire_write::put_word8(&mut bundle, 24, 65);
    print_check(rt, &bundle)
}

// 65 binaries of 72 bytes, each behind a byte that is none.
fn put_binaries(out: &mut [u8]) {
    for i in 0..65 {
        wire_copy::copy_at(
            out,
            73 * i + 1,
            b"\x10\xff\x10\xad\x01\0\0\0\x48\0\0\0\0\0\0\0\x20\0\0\0\0\0\0\0\x28\0\0\0\0\0\0\0\
            \0\0\0\0\0\0\0\0\x48\0\0\0\0\0\0\0\0\0\0\0\0\0\0\0\x48\0\0\0\0\0\0\0\0\0\0\0\0\0\0\0",
        );
    }
}

// "A 65th found binary gives 18 with its first byte as place"
pub fn sixty_five(rt: &impl Print) -> io::Result<()> {
    let mut binaries = [b'.'; 4745];
    put_binaries(&mut binaries);
    let recovered = offload_binary_recovery::recover(&binaries, &mut [b'.'; 1], &mut [[1, 2]; 1]);
    let r = Recovered::from(recovered);
    print!(rt; "recover")?;
    print(rt, r.number as u64)?;
    print(rt, r.place as u64)?;
    print(rt, r.length as u64)?;
    print(rt, r.spans as u64)?;
    println!(rt)
}

// Reads until `buf` is full or the input ends, and returns how many bytes that gave.
// By hand, as in `offload_compare`, but a read that fails is an error here: `read_exact` does not say how much it read.
fn read_full(input: &mut impl Read, buf: &mut [u8]) -> io::Result<usize>
    ensures { IfOk result (λ n. n ≤ length buf.new) }
{
    let mut done = 0;
    while done < buf.len() {
        let n = input.read(&mut buf[done..])?;
        if n == 0 {
            break;
        }
        done += n;
    }
    Ok(done)
}

// A real bundle by LLVM, on standard input: samples/bundles/five-fields.bundle.
// No heap: the bytes fill the front of an array, and the length says how far.
pub fn real_bundle(rt: &(impl Print + Input)) -> io::Result<()> {
    let mut buffer = [0u8; 8192];
    let n = read_full(&mut rt.reader(), &mut buffer)?;
    let bundle = &buffer[..n];
    print_check(rt, bundle)?;
    let mut out = [b'.'; 6640];
    let length = print_normal(rt, bundle, &mut out)?;
    let written = Part {
        start: 0,
        len: length,
    };
    let normal = offload_binary_parts::bytes_at(&out, written);
    print_normal(rt, normal, &mut [b'.'; 6640])?;
    print_pick(rt, bundle, b"hip-amdgcn-amd-amdhsa--gfx906:sramecc+:xnack+")?;
    print_pick(rt, bundle, b"hip-amdgcn-amd-amdhsa--gfx906")
}

fn fill(s: &mut [u8]) {
    for (i, byte) in s.iter_mut().enumerate() {
        *byte = (i % 251) as u8;
    }
}

// A copy of 20,000 bytes: in more than one part.
pub fn long_copy(rt: &impl Print) -> io::Result<()> {
    let mut src = [0u8; 20000];
    fill(&mut src);
    let mut out = [b'.'; 20002];
    wire_copy::copy_at(&mut out, 1, &src);
    print!(rt; "copy")?;
    print(rt, sum_of(&out))?;
    println!(rt)
}
