// LLVM's offload binaries laid end to end: a cursor that reads one after another, and a reader that holds the bytes.
#![tactic(auto)]

ghost use Rattle.std.specs.Prelude.{◌≡◌};
ghost use Rattle.offload_binary.specs.Reader.{opened, next};
ghost use Rattle.offload_binary.specs.Results.{answer_of, step_of};
ghost use Rattle.offload_binaries.specs.Held.{answered, moved};

use offload_binary::{Binary, Cursor};
use wire::{Reason, Refusal};

// Most bytes in a sequence, and most binaries.
const LIMIT: usize = 1073741824;

const BINARIES: usize = 64;

// The binary at a cursor, and the cursor behind it.
pub fn next_at(s: &[u8], cursor: Cursor) -> Result<(Binary, Cursor), Refusal>
    ensures { step_of cursor result ≡ next s.now cursor }
{
    let Cursor { position, taken } = cursor;
    if LIMIT < s.len() {
        return Err(Reason::Length.at(position));
    }
    if position == s.len() {
        return Err(Reason::End.at(position));
    }
    if BINARIES <= taken {
        return Err(Reason::Many.at(position));
    }
    let binary = offload_binary_reader::binary_at(s, position)?;
    let behind = Cursor {
        position: position + binary.size,
        taken: taken + 1,
    };
    Ok((binary, behind))
}

// A reader, opened on lent bytes.
#[derive(Clone, Drop)]
pub struct Reader<'a> {
    pub bytes: &'a [u8],
    pub cursor: Cursor,
}

impl<'a> Reader<'a> {
    // A reader at the first byte. On bytes above the size limit every call then answers LENGTH.
    pub fn open(bytes: &'a [u8]) -> Reader<'a>
        ensures { result ≡ record { bytes = bytes.entry; cursor = opened } }
    {
        Reader {
            bytes,
            cursor: Cursor {
                position: 0,
                taken: 0,
            },
        }
    }

    // The next binary: the reader goes past it, or stays where it was refused or ended.
    pub fn next(&mut self) -> Result<Binary, Refusal>
        ensures { (answer_of result ≡ answered self.old) × (self.new ≡ moved self.old) }
    {
        let (binary, cursor) = next_at(self.bytes, self.cursor)?;
        self.cursor = cursor;
        Ok(binary)
    }
}
