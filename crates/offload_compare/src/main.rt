// offload-compare LEFT RIGHT: the report on the differences of the bundles in two files.
#![tactic(auto)]

ghost use Rattle.std.specs.Prelude.{◌≡◌, ◌<◌, ◌≤◌, length, take, IfSome, IsTrue};
ghost use Rattle.std.specs.Io.KnownBytes.{Consumes, IsAtEnd};

use std::env::Env;
use std::fs::OpenOptions;
use std::io;
use std::io::Read;
use std::rt::Files;

// One byte more than a bundle that is compared may have: so a longer file is told from one that fits.
const ROOM: usize = 32769;

// The most bytes in a report.
const REPORT: usize = 33168;

// A path of the system has fewer bytes.
const PATH: usize = 4096;

// The bytes of an open file, as far as there is room for them, it does not end and no read fails.
fn read_full<R: Read>(file: &mut R, bytes: &mut [u8]) -> usize
    ensures bound { result ≤ length bytes.new }
    ensures given { Consumes (R.remaining file.old) (R.remaining file.new) (take result bytes.new) }
{
    // By hand: at a short file `read_exact` does not say how much it read, and `read_to_end` takes heap.
    let mut got = 0;
    while got < bytes.len() {
        match file.read(&mut bytes[got..]) {
            Ok(0) | Err(_) => break,
            Ok(n) => got += n,
        }
    }
    got
}

// Whether a file that was read so far has come to its end, and has not failed.
fn ended<R: Read>(file: &mut R) -> bool
    ensures { IsTrue result → IsAtEnd (R.remaining file.old) }
{
    let mut more = [0u8; 1];
    matches!(file.read(&mut more), Ok(0))
}

// The bytes of an open file, as far as there is room for them; none where it cannot be read to its end.
// No bytes stand for no file, since a file that cannot be read counts as empty: an Option would be made 0 at once.
fn read_open<R: Read>(file: &mut R, bytes: &mut [u8; ROOM]) -> usize
    ensures bound { result ≤ length bytes.new }
    ensures front { IfSome (R.remaining file.old) (λ xs. take result bytes.new ≡ take result xs) }
    ensures whole { IfSome (R.remaining file.old) (λ xs. 0 < result → result < ROOM → take result bytes.new ≡ xs) }
{
    let got = read_full(file, bytes);
    if got < ROOM {
        if !ended(file) {
            return 0;
        }
    }
    got
}

// The bytes of the file that argument i names; none where there is no such argument, or the file cannot be read.
// No heap: the bytes fill the front of a lent array, and the length says how far.
fn read_file(rt: &HostRuntime, i: usize, bytes: &mut [u8; ROOM]) -> usize
    ensures { result ≤ length bytes.new }
{
    let mut path = [0u8; PATH];
    let Ok(n) = rt.arg(i, &mut path) else {
        return 0;
    };
    let Ok(path) = str::from_utf8(&path[..n]) else {
        return 0;
    };
    let mut options = OpenOptions::new();
    options.read(true);
    let Ok(mut file) = rt.open_file(&options, path) else {
        return 0;
    };
    read_open(&mut file, bytes)
}

fn main(rt: HostRuntime) -> io::Result<()> {
    let mut left = [0u8; ROOM];
    let mut right = [0u8; ROOM];
    let mut text = [0u8; REPORT];
    let n = read_file(&rt, 1, &mut left);
    let m = read_file(&rt, 2, &mut right);
    let len = bundle_compare::compare(&left[..n], &right[..m], &mut text);
    rt.write_all(&text[..len])
}
