// Where the parts of a canonical form stand.
ghost use Rattle.std.specs.Prelude.{◌≡◌, ◌<◌, ◌≤◌, length, drop, MatchOption};
ghost use Rattle.wire.specs.Lists.{every};
ghost use Rattle.entry_id.specs.Meaning.{feature};
ghost use Rattle.entry_id.specs.Text.{other_than};
ghost use Rattle.entry_id.specs.Scan.{Run, pieces_at};
ghost use Rattle.entry_id.specs.Profile.{supported};
ghost use Rattle.profile_form.specs.Parts.{behind, past_arch};

use crate::table::Marks;

// Where the parts of a canonical form of ours stand: its kind ends at `kind`, its processor goes from `at` to `stop`.
#[derive(Clone, Copy)]
pub(crate) struct Card {
    pub kind: usize,
    pub at: usize,
    pub stop: usize,
}

// Where the first c from `from` on stands, or the end, where a part is cut.
// It is `find` in the words of IDs, `Run (other_than c)`: the crate `wire_read` knows no IDs.
pub(crate) fn seek(x: &[u8], from: usize, c: u8) -> usize
    requires { from ≤ length x.now }
    ensures { Run (other_than c) x.now from result }
{
    wire_read::find(x, from, c)
}

// Where x goes on behind the first '-' from `from` on; its end where there is none, as nothing follows there.
pub(crate) fn past_dash(x: &[u8], from: usize) -> usize
    requires { from ≤ length x.now }
    ensures { (drop result x.now ≡ behind (drop from x.now)) × (result ≤ length x.now) }
{
    let i = seek(x, from, b'-');
    if i < x.len() {
        return i + 1;
    }
    i
}

// Where a text of our kinds and arch goes on after them.
// Three kinds, three lines: a list of them would need a loop, and their lengths beside them.
pub(crate) fn past_arch(x: &[u8]) -> Option<usize>
    ensures { MatchOption result (past_arch x.now ≡ 0) (λ k. (past_arch x.now ≡ k) × (0 < k) × (k ≤ length x.now)) }
{
    if x.starts_with(b"hip-amdgcn-") {
        return Some(11);
    }
    if x.starts_with(b"hipv4-amdgcn-") {
        return Some(13);
    }
    if x.starts_with(b"openmp-amdgcn-") {
        return Some(14);
    }
    None
}

// Whether a piece states a feature that is supported.
fn supported_piece(p: &[u8], marks: Marks) -> bool
    ensures { result ≡ supported marks.sramecc marks.xnack (feature p.now) }
{
    let n = p.len();
    if n == 0 {
        return false;
    }
    let name = &p[..n - 1];
    let is_sramecc = wire_read::same_bytes(name, b"sramecc");
    let is_xnack = wire_read::same_bytes(name, b"xnack");
    (is_sramecc & marks.sramecc) | (is_xnack & marks.xnack)
}

// Whether every piece of x, whose head ends at stop, states a feature that is supported.
pub(crate) fn all_supported(x: &[u8], stop: usize, marks: Marks) -> bool
    ensures { result ≡ every (λ p. supported marks.sramecc marks.xnack (feature p)) (pieces_at x.now stop) }
{
    let mut at = stop;
    // Not a range: each step goes to the next ':'.
    while at < x.len() {
        let e = seek(x, at + 1, b':');
        if !supported_piece(&x[at + 1..e], marks) {
            return false;
        }
        at = e;
    }
    true
}
