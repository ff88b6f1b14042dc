// Entry IDs of offload bundles: the canonical form of a text.
#![tactic(auto)]

mod features;
mod head;
mod plan;
mod scan;

ghost use Rattle.std.specs.Prelude.{◌≡◌, ◌+◌, ◌%◌, ◌^◌, ◌++◌, length, drop};
ghost use Rattle.canonical_form.specs.Made.{form_of, compared_length};
ghost use Rattle.entry_id.specs.Canonical.{kind_part, after_kind, head_number, key_of, canonical_in};
ghost use Rattle.canonical_form.specs.Heads.{Kinded};

use crate::features::Span;

// A canonical form that was made: its length, and a number made from its head. Forms that a test of `entry_compare` relates have equal keys.
#[derive(Clone, Copy)]
pub struct Form {
    pub length: usize,
    pub key: u64,
}

// The number of a head.
pub fn head_number(head: &[u8]) -> u64
    ensures { result ≡ head_number head.now }
{
    let last = head.len().saturating_sub(8);
    wire_read::word_at::<8>(head, 0).wrapping_add(wire_read::word_at::<8>(head, last))
}

// The lengths of the kinds host, hip, hipv4 and openmp. They stand for the kinds, since a key counts them (`compared_length`).
const HOST: usize = 4;

const HIP: usize = 3;

const HIPV4: usize = 5;

const OPENMP: usize = 6;

// The length of the kind that a head starts with. Its first, second and fourth bytes tell.
fn kind_length(head: &[u8]) -> usize
    requires { Kinded head.now }
    ensures { result ≡ length (kind_part head.now) }
{
    if head[0] == b'o' {
        return OPENMP;
    }
    if head[1] == b'o' {
        return HOST;
    }
    if head[3] == b'-' {
        return HIP;
    }
    HIPV4
}

// The key of a form with a kind of `kind` bytes and this head behind it: hipv4 is compared as hip.
pub fn key_behind(kind: usize, head: &[u8]) -> u64
    ensures { result ≡ (head_number head.now + compared_length kind) % 2 ^ 64 }
{
    let compared = if kind == HIPV4 { HIP } else { kind };
    head_number(head).wrapping_add(compared as u64)
}

// The key of a form with this head.
fn head_key(head: &[u8]) -> u64
    requires { Kinded head.now }
    ensures { result ≡ key_of (kind_part head.now) (after_kind head.now) }
{
    let kind = kind_length(head);
    key_behind(kind, &head[kind..])
}

// The canonical form of id at the start of out; none, and out as it was, where id breaks the rules or the form does not fit.
pub fn canonical(id: &[u8], out: &mut [u8]) -> Option<Form>
    ensures { let c = canonical_in (length out.old) id.now in (result ≡ form_of c) × (out.new ≡ c ++ drop (length c) out.old) }
{
    let mut spans = [Span { at: 0, sign: 0 }; 8];
    let plan = plan::read(id, &mut spans)?;
    let head = plan.head;
    let length = id.len() + head.dashes;
    if out.len() < length {
        return None;
    }
    plan::put_text(out, id, head.at, head.dashes, plan.upto);
    let key = head_key(&out[..head.stop + head.dashes]);
    plan::put_pieces(out, plan.upto + head.dashes, id, &spans[..plan.count]);
    Some(Form { length, key })
}
