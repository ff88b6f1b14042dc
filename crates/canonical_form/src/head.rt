// The head of an ID: kind, triple, environment and processor, before the first ':'.
ghost use Rattle.std.specs.Prelude.{◌≡◌, ◌+◌, ◌<◌, true, false, drop, MatchOption};
ghost use Rattle.wire.specs.Lists.{any};
ghost use Rattle.wire.specs.Bytes.{same};
ghost use Rattle.entry_id.specs.Meaning.{kinds, names_processor, field_byte, processor_shaped, valid};
ghost use Rattle.entry_id.specs.Canonical.{head_of};
ghost use Rattle.entry_id.specs.Scan.{Run};
ghost use Rattle.canonical_form.specs.Heads.{Next, NoNext, Triple, ProcessorAt, HeadAt};

use crate::scan::{byte, ends, field_end, processor_end};

fn is_kind(k: &[u8]) -> bool
    ensures { result ≡ any (same k.now) kinds }
{
    match k.len() {
        3 => wire_read::same_bytes(k, b"hip"),
        4 => wire_read::same_bytes(k, b"host"),
        5 => wire_read::same_bytes(k, b"hipv4"),
        6 => wire_read::same_bytes(k, b"openmp"),
        _ => false,
    }
}

// Byte by byte: as a slice pattern it left goals of its proof open.
fn is_proc(f: &[u8]) -> bool
    ensures { result ≡ names_processor f.now }
{
    if f.len() < 3 {
        return false;
    }
    if f[0] == b'g' {
        return (f[1] == b'f') & (f[2] == b'x');
    }
    (f[0] == b's') & ((f[1] == b'm') & (f[2] == b'_'))
}

// The end of the field, of at least one byte, that follows a '-' at a.
fn next(id: &[u8], a: usize) -> Option<usize>
    ensures { MatchOption result (NoNext id.now a) (Next id.now a) }
{
    if byte(id, a) != b'-' {
        return None;
    }
    let r = field_end(id, a + 1);
    if r == a + 1 {
        return None;
    }
    Some(r)
}

// The end of the fourth field: kind, arch, vendor, system; none where they break the rules.
fn triple(id: &[u8]) -> Option<usize>
    ensures { MatchOption result (valid id.now ≡ false) (Triple id.now) }
{
    let a = field_end(id, 0);
    if !is_kind(&id[..a]) {
        return None;
    }
    let b = next(id, a)?;
    let c = next(id, b)?;
    next(id, c)
}

// The end of the processor, empty or not, that starts at a, with a field that ends at e; none where what stands there is none.
fn processor(id: &[u8], a: usize, e: usize) -> Option<usize>
    requires { (0 < a) × Run field_byte id.now a e }
    ensures { MatchOption result (processor_shaped (head_of (drop a id.now)) ≡ false) (ProcessorAt id.now a) }
{
    if ends(id, e) {
        return Some(e);
    }
    let r = processor_end(id, e);
    if !ends(id, r) {
        return None;
    }
    if (id[a] == b'-') | (id[r - 1] == b'-') {
        return None;
    }
    Some(r)
}

// The head of an ID: the canonical form has `dashes` more '-', at `at`; it ends at `stop`; `processor` says whether one is named.
#[derive(Clone, Copy)]
pub(crate) struct Head {
    pub at: usize,
    pub dashes: usize,
    pub stop: usize,
    pub processor: bool,
}

impl Head {
    fn new(at: usize, dashes: usize, stop: usize, processor: bool) -> Self
        ensures { result ≡ record { at = at; dashes = dashes; stop = stop; processor = processor } }
    {
        Head {
            at,
            dashes,
            stop,
            processor,
        }
    }
}

// Where the environment and the processor stand.
pub(crate) fn read_head(id: &[u8]) -> Option<Head>
    ensures { MatchOption result (valid id.now ≡ false) (HeadAt id.now) }
{
    let d = triple(id)?;
    if ends(id, d) {
        return Some(Head::new(d, 2, d, false));
    }
    if byte(id, d) != b'-' {
        return None;
    }
    let e = field_end(id, d + 1);
    if is_proc(&id[d + 1..e]) {
        let p = processor(id, d + 1, e)?;
        return Some(Head::new(d, 1, p, true));
    }
    if ends(id, e) {
        return Some(Head::new(e, 1, e, false));
    }
    if byte(id, e) != b'-' {
        return None;
    }
    let f = field_end(id, e + 1);
    let p = processor(id, e + 1, f)?;
    Some(Head::new(p, 0, p, e + 1 < p))
}
