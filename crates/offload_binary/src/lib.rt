// LLVM's offload binaries, one and many laid end to end: what the calls are given and hand back. The definitions and theorems are in specs/; the code is in
// `offload_binary_parts`, `offload_binary_reader`, `offload_binaries`, `offload_binary_writer` and `offload_binary_recovery`.
// A call returns a value or a `Refusal`. C gets the numbers of either, which the records of numbers here have: each is made from the call's result.
#![tactic(auto)]

ghost use Rattle.std.specs.Prelude.{◌≡◌};
ghost use Rattle.offload_binary.specs.Results.{answer_of, written_of, recovered_of};

use wire::Refusal;

// ---- values

// A part of lent bytes: the place of its first byte, and its length.
#[repr(C)]
#[derive(Clone, Copy)]
pub struct Part {
    pub start: usize,
    pub len: usize,
}

// A string pair: the parts that hold its key and its text, without their zero bytes.
#[repr(C)]
#[derive(Clone, Copy)]
pub struct StringPair {
    pub key: Part,
    pub text: Part,
}

// The part of no bytes, and the pair of such parts.
pub const NO_PART: Part = Part { start: 0, len: 0 };

pub const NO_PAIR: StringPair = StringPair {
    key: NO_PART,
    text: NO_PART,
};

// The entry of a binary, its offsets counted from the binary's first byte: the string table starts at `table` and has `count` pairs.
// The kinds are numbers, as `entry_of` and `bad_kinds` read them and C gets them.
#[derive(Clone, Copy)]
pub struct Entry {
    pub image_kind: u64,
    pub offload_kind: u64,
    pub flags: u64,
    pub table: usize,
    pub count: usize,
    pub image: Part,
}

// What a binary holds, places counted from the first byte of all: its string pairs are the first `count` of `pairs`.
// The definition `hands_back` has the array and its count as two fields, and the kinds as numbers.
#[derive(Clone, Copy)]
pub struct Binary {
    pub start: usize,
    pub size: usize,
    pub image_kind: u64,
    pub offload_kind: u64,
    pub flags: u64,
    pub image: Part,
    pub count: usize,
    pub pairs: [StringPair; 32],
}

// Where a reader stands: the first byte not yet read, and how many binaries it has handed back.
#[derive(Clone, Copy)]
pub struct Cursor {
    pub position: usize,
    pub taken: usize,
}

// The kinds and the flags of a binary. The kinds are numbers, since `bad_kinds` asks for those that are none.
#[derive(Clone, Copy)]
pub struct Tags {
    pub image_kind: u64,
    pub offload_kind: u64,
    pub flags: u32,
}

// What a recovery writes: the bytes copied and the spans reported.
#[derive(Clone, Copy)]
pub struct Recovery {
    pub length: usize,
    pub spans: usize,
}

// ---- the numbers of a result

// What a reader answers: 0, 0 and a binary; or the number and place of END or a refusal, and no binary.
#[derive(Clone, Copy)]
pub struct Answer {
    pub number: usize,
    pub place: usize,
    pub binary: Binary,
}

// What a call answers, and where the reader then stands.
#[derive(Clone, Copy)]
pub struct Step {
    pub answer: Answer,
    pub cursor: Cursor,
}

// What a call that writes a binary returns: 0, 0 and the length written; or a refusal's number, and nothing written.
#[derive(Clone, Copy)]
pub struct Written {
    pub number: usize,
    pub place: usize,
    pub len: usize,
}

// What a recovery returns: 0, 0, the bytes copied and the spans reported; or a refusal's number and place, and nothing written.
#[derive(Clone, Copy)]
pub struct Recovered {
    pub number: usize,
    pub place: usize,
    pub length: usize,
    pub spans: usize,
}

// 0 in every number.
const NO_BINARY: Binary = Binary {
    start: 0,
    size: 0,
    image_kind: 0,
    offload_kind: 0,
    flags: 0,
    image: NO_PART,
    count: 0,
    pairs: [NO_PAIR; 32],
};

impl From<Result<Binary, Refusal>> for Answer {
    ghost from_gives = { λ answered numbers. numbers ≡ answer_of answered };

    #[tactic(auto, unfolding(crate::specs::Lists::slots))]
    fn from(answered: Result<Binary, Refusal>) -> Answer {
        match answered {
            Ok(binary) => Answer {
                number: 0,
                place: 0,
                binary,
            },
            Err(refusal) => Answer {
                number: refusal.reason.number(),
                place: refusal.place,
                binary: NO_BINARY,
            },
        }
    }
}

impl From<Result<usize, Refusal>> for Written {
    ghost from_gives = { λ written numbers. numbers ≡ written_of written };

    fn from(written: Result<usize, Refusal>) -> Written {
        match written {
            Ok(len) => Written {
                number: 0,
                place: 0,
                len,
            },
            Err(refusal) => Written {
                number: refusal.reason.number(),
                place: refusal.place,
                len: 0,
            },
        }
    }
}

impl From<Result<Recovery, Refusal>> for Recovered {
    ghost from_gives = { λ recovered numbers. numbers ≡ recovered_of recovered };

    fn from(recovered: Result<Recovery, Refusal>) -> Recovered {
        match recovered {
            Ok(recovery) => Recovered {
                number: 0,
                place: 0,
                length: recovery.length,
                spans: recovery.spans,
            },
            Err(refusal) => Recovered {
                number: refusal.reason.number(),
                place: refusal.place,
                length: 0,
                spans: 0,
            },
        }
    }
}
