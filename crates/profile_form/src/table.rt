// The processors of AMD's cards, copied from LLVM's AMDGPU user guide: a row for each name, and where the row of a name is.
ghost use Rattle.std.specs.Prelude.{◌≡◌, ◌<◌, MatchOption};
ghost use Rattle.wire.specs.Bytes.{same};
ghost use Rattle.wire.specs.First.{first};
ghost use Rattle.profile_form.specs.Table.{table, name_at, slot_of};

// Which features a processor supports.
#[derive(Clone, Copy)]
pub(crate) struct Marks {
    pub sramecc: bool,
    pub xnack: bool,
}

// A name, with dots behind it, and its length; the row of its primary; and the marks.
#[derive(Clone, Copy)]
pub(crate) struct Row {
    name: [u8; 16],
    length: usize,
    pub primary: usize,
    pub marks: Marks,
}

macro_rules! row {
    ($name:literal, $length:literal, $primary:literal, $sramecc:literal, $xnack:literal) => {
        Row {
            name: *$name,
            length: $length,
            primary: $primary,
            marks: Marks {
                sramecc: $sramecc,
                xnack: $xnack,
            },
        }
    };
}

pub(crate) static PROCESSORS: [Row; 68] = [
    row!(b"gfx600 . . . . .", 6, 0, false, false),
    row!(b"tahiti . . . . .", 6, 0, false, false),
    row!(b"gfx601 . . . . .", 6, 2, false, false),
    row!(b"pitcairn . . . .", 8, 2, false, false),
    row!(b"verde. . . . . .", 5, 2, false, false),
    row!(b"gfx602 . . . . .", 6, 5, false, false),
    row!(b"hainan . . . . .", 6, 5, false, false),
    row!(b"oland. . . . . .", 5, 5, false, false),
    row!(b"gfx700 . . . . .", 6, 8, false, false),
    row!(b"kaveri . . . . .", 6, 8, false, false),
    row!(b"gfx701 . . . . .", 6, 10, false, false),
    row!(b"hawaii . . . . .", 6, 10, false, false),
    row!(b"gfx702 . . . . .", 6, 12, false, false),
    row!(b"gfx703 . . . . .", 6, 13, false, false),
    row!(b"kabini . . . . .", 6, 13, false, false),
    row!(b"mullins. . . . .", 7, 13, false, false),
    row!(b"gfx704 . . . . .", 6, 16, false, false),
    row!(b"bonaire. . . . .", 7, 16, false, false),
    row!(b"gfx705 . . . . .", 6, 18, false, false),
    row!(b"gfx801 . . . . .", 6, 19, false, true),
    row!(b"carrizo. . . . .", 7, 19, false, true),
    row!(b"gfx802 . . . . .", 6, 21, false, false),
    row!(b"iceland. . . . .", 7, 21, false, false),
    row!(b"tonga. . . . . .", 5, 21, false, false),
    row!(b"gfx803 . . . . .", 6, 24, false, false),
    row!(b"fiji . . . . . .", 4, 24, false, false),
    row!(b"polaris10. . . .", 9, 24, false, false),
    row!(b"polaris11. . . .", 9, 24, false, false),
    row!(b"gfx805 . . . . .", 6, 28, false, false),
    row!(b"tongapro . . . .", 8, 28, false, false),
    row!(b"gfx810 . . . . .", 6, 30, false, true),
    row!(b"stoney . . . . .", 6, 30, false, true),
    row!(b"gfx900 . . . . .", 6, 32, false, true),
    row!(b"gfx902 . . . . .", 6, 33, false, true),
    row!(b"gfx904 . . . . .", 6, 34, false, true),
    row!(b"gfx906 . . . . .", 6, 35, true, true),
    row!(b"gfx908 . . . . .", 6, 36, true, true),
    row!(b"gfx909 . . . . .", 6, 37, false, true),
    row!(b"gfx90a . . . . .", 6, 38, true, true),
    row!(b"gfx90c . . . . .", 6, 39, false, true),
    row!(b"gfx940 . . . . .", 6, 40, true, true),
    row!(b"gfx941 . . . . .", 6, 41, true, true),
    row!(b"gfx942 . . . . .", 6, 42, true, true),
    row!(b"gfx1010. . . . .", 7, 43, false, true),
    row!(b"gfx1011. . . . .", 7, 44, false, true),
    row!(b"gfx1012. . . . .", 7, 45, false, true),
    row!(b"gfx1013. . . . .", 7, 46, false, true),
    row!(b"gfx1030. . . . .", 7, 47, false, false),
    row!(b"gfx1031. . . . .", 7, 48, false, false),
    row!(b"gfx1032. . . . .", 7, 49, false, false),
    row!(b"gfx1033. . . . .", 7, 50, false, false),
    row!(b"gfx1034. . . . .", 7, 51, false, false),
    row!(b"gfx1035. . . . .", 7, 52, false, false),
    row!(b"gfx1036. . . . .", 7, 53, false, false),
    row!(b"gfx1100. . . . .", 7, 54, false, false),
    row!(b"gfx1101. . . . .", 7, 55, false, false),
    row!(b"gfx1102. . . . .", 7, 56, false, false),
    row!(b"gfx1103. . . . .", 7, 57, false, false),
    row!(b"gfx1150. . . . .", 7, 58, false, false),
    row!(b"gfx1151. . . . .", 7, 59, false, false),
    row!(b"gfx1152. . . . .", 7, 60, false, false),
    row!(b"gfx1200. . . . .", 7, 61, false, false),
    row!(b"gfx1201. . . . .", 7, 62, false, false),
    row!(b"gfx9-generic . .", 12, 63, false, true),
    row!(b"gfx10-1-generic.", 15, 64, false, true),
    row!(b"gfx10-3-generic.", 15, 65, false, false),
    row!(b"gfx11-generic. .", 13, 66, false, false),
    row!(b"gfx12-generic. .", 13, 67, false, false),
];

// The row of a name, by a number made from the name: a map of std's would need a heap.
const SLOTS: [u8; 160] = *b"\
    \x00\x1A\x02\x03\x0B\x06\x06\x07\x08\x3D\x0A\x0B\x0C\x42\x03\x0F\x40\x04\x12\x13\
    \x14\x15\x16\x17\x18\x08\x16\x1B\x3A\x1D\x14\x1E\x20\x0E\x10\x27\x24\x1F\x26\x27\
    \x29\x13\x2A\x3C\x2C\x2D\x2E\x2F\x38\x31\x32\x33\x34\x35\x36\x0C\x26\x39\x3A\x3B\
    \x3C\x3B\x3E\x09\x40\x41\x37\x35\x00\x01\x02\x18\x04\x05\x06\x07\x08\x09\x20\x0B\
    \x0C\x39\x25\x05\x36\x34\x12\x22\x14\x15\x16\x2E\x18\x19\x1D\x1B\x1C\x1D\x1E\x1F\
    \x20\x1C\x22\x33\x00\x25\x30\x27\x21\x2D\x43\x2B\x19\x2D\x11\x2F\x30\x23\x32\x33\
    \x0A\x32\x36\x37\x2F\x07\x3A\x2C\x3C\x12\x3E\x0F\x40\x41\x42\x2A\x15\x01\x02\x31\
    \x3F\x05\x06\x07\x08\x2B\x0A\x24\x02\x0D\x0D\x3E\x17\x11\x12\x13\x28\x1B\x41\x17";

// The number of a name: no two names of the table have the same.
fn slot_of(w: &[u8]) -> usize
    ensures { result ≡ slot_of w.now }
{
    (canonical_form::head_number(w) % 1633811 % 160) as usize
}

// The name of row k.
pub(crate) fn name_at(t: &[Row], k: usize) -> &[u8]
    requires { (t.now ≡ table) × (k < 68) }
    ensures { result.now ≡ name_at k }
{
    let row = &t[k];
    let name: &[u8] = &row.name;
    &name[..row.length]
}

// The row that has the name w.
pub(crate) fn row_of(t: &[Row], w: &[u8]) -> Option<usize>
    requires { t.now ≡ table }
    ensures { MatchOption result (first 68 (λ k. same (name_at k) w.now) ≡ 68) (λ r. (first 68 (λ k. same (name_at k) w.now) ≡ r) × (r < 68)) }
{
    let slots = SLOTS;
    let k = slots[slot_of(w)] as usize;
    if wire_read::same_bytes(name_at(t, k), w) {
        return Some(k);
    }
    None
}
