// An ID read whole, and its canonical form written from the text's own parts.
ghost use Rattle.std.specs.Prelude.{◌≡◌, ◌+◌, ◌-◌, ◌<◌, ◌≤◌, false, T, length, MatchOption};
ghost use Rattle.entry_id.specs.Meaning.{valid};
ghost use Rattle.wire.specs.Lists.{every};
ghost use Rattle.canonical_form.specs.Spans.{PlanAt, good, chunks, head_text};
ghost use Rattle.wire.specs.Bytes.{overwrite};

use crate::features::{Span, read_pieces, sort};
use crate::head::{Head, read_head};

// What an ID says. Its canonical form has the text up to `upto`, with the head's dashes put in, and then the first `count` spans.
// Where the features stand in order, the text is taken whole and no span is left.
#[derive(Clone, Copy)]
pub(crate) struct Plan {
    pub head: Head,
    pub upto: usize,
    pub count: usize,
}

// Reads an ID, its features into spans.
pub(crate) fn read(id: &[u8], spans: &mut [Span; 8]) -> Option<Plan>
    ensures { MatchOption result (valid id.now ≡ false) (λ p. PlanAt id.now p spans.new) }
{
    if 256 < id.len() {
        return None;
    }
    let head = read_head(id)?;
    let count = read_pieces(id, head.stop, spans)?;
    if (0 < count) & !head.processor {
        return None;
    }
    if 256 - head.dashes < id.len() {
        return None;
    }
    let tidy = sort(id, &mut spans[..count])?;
    if tidy {
        return Some(Plan {
            head,
            upto: id.len(),
            count: 0,
        });
    }
    Some(Plan {
        head,
        upto: head.stop,
        count,
    })
}

// Writes the text up to `upto`, with the dashes put in, to the start of out.
pub(crate) fn put_text(out: &mut [u8], id: &[u8], at: usize, dashes: usize, upto: usize)
    requires { (at ≤ upto) × ((upto ≤ length id.now) × ((dashes ≤ 2) × (upto + dashes ≤ length out.old))) }
    ensures { out.new ≡ overwrite out.old 0 (head_text id.now at dashes upto) }
{
    if dashes == 0 {
        wire_copy::copy_at(out, 0, &id[..upto]);
        return;
    }
    let d = [b'-', b'-'];
    wire_copy::copy_at(out, 0, &id[..at]);
    wire_copy::copy_at(out, at, &d[..dashes]);
    wire_copy::copy_at(out, at + dashes, &id[at..upto]);
}

// Writes features to out from p on.
pub(crate) fn put_pieces(out: &mut [u8], p: usize, id: &[u8], spans: &[Span])
    requires { T (every (good id.now) spans.now) × (p + length (chunks id.now spans.now) ≤ length out.old) }
    ensures { out.new ≡ overwrite out.old p (chunks id.now spans.now) }
{
    let mut q = p;
    for span in spans {
        let c = span.chunk(id);
        wire_copy::copy_at(out, q, c);
        q += c.len();
    }
}
