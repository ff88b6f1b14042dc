// Reading one text: classes of bytes, and how far a run of one class goes.
ghost use Rattle.std.specs.Prelude.{◌≡◌, ℕ, ◌<◌, ◌≤◌, Bool, true, length, slice_index};
ghost use Rattle.entry_id.specs.Meaning.{field_byte, name_byte, processor_byte};
ghost use Rattle.entry_id.specs.Scan.{Run, ends_at};

// Most bytes of an ID are small letters, and a byte below '0' ends most runs: these are asked first.

fn name_byte(b: u8) -> bool
    ensures { result ≡ name_byte b }
{
    if (97 <= b) & (b <= 122) {
        return true;
    }
    if b <= 57 {
        return 48 <= b;
    }
    b == 95
}

fn field_byte(b: u8) -> bool
    ensures { result ≡ field_byte b }
{
    if (97 <= b) & (b <= 122) {
        return true;
    }
    if b < 46 {
        return false;
    }
    if b <= 57 {
        return b != 47;
    }
    ((65 <= b) & (b <= 90)) | (b == 95)
}

fn processor_byte(b: u8) -> bool
    ensures { result ≡ processor_byte b }
{
    field_byte(b) | (b == b'-')
}

// The end of the run of bytes of a class that starts at from.
// `from` is a place of the text, as the answer is: for a slice behind it each caller would add it again.
fn run_end<F: Fn(u8) -> bool>(x: &[u8], from: usize, in_class: F) -> usize
    requires inside { from ≤ length x.now }
    requires callable { F.IsAlwaysCallable in_class }
    ensures { (class : ℕ → Bool) → ((b : ℕ) (r : Bool) → F.post in_class b r → r ≡ class b) → Run class x.now from result }
{
    for i in from..x.len() {
        if !in_class(x[i]) {
            return i;
        }
    }
    x.len()
}

// The three ends are named by their classes, so that a caller need not say the class to the scan and again to its proof.
pub(crate) fn field_end(x: &[u8], from: usize) -> usize
    requires { from ≤ length x.now }
    ensures { Run field_byte x.now from result }
{
    run_end(x, from, field_byte)
}

pub(crate) fn name_end(x: &[u8], from: usize) -> usize
    requires { from ≤ length x.now }
    ensures { Run name_byte x.now from result }
{
    run_end(x, from, name_byte)
}

pub(crate) fn processor_end(x: &[u8], from: usize) -> usize
    requires { from ≤ length x.now }
    ensures { Run processor_byte x.now from result }
{
    run_end(x, from, processor_byte)
}

// The byte at i, or 0 past the end, which is neither a sign nor a '-'.
pub(crate) fn byte(id: &[u8], i: usize) -> u8
    ensures { result ≡ slice_index id.now i }
{
    id.get(i).copied().unwrap_or(0)
}

pub(crate) fn ends(id: &[u8], i: usize) -> bool
    ensures { result ≡ ends_at id.now i }
{
    match id.get(i) {
        Some(b) => *b == b':',
        None => true,
    }
}
