// What bytes mean: little-endian words, byte strings, order, refusals. Definitions and theorems, in specs/. The code is in `wire_read`, `wire_copy` and `wire_write`.
#![tactic(auto)]

ghost use Rattle.std.specs.Prelude.{◌≡◌};
ghost use Rattle.wire.specs.Refusals.{number_of};

// Why a call refuses, under the names and numbers of include/offload.h.
#[derive(Clone, Copy, PartialEq, Eq)]
pub enum Reason {
    Length = 1,
    Magic = 2,
    Count = 3,
    Table = 4,
    Id = 5,
    Range = 6,
    Twice = 7,
    Mixed = 8,
    Query = 9,
    None = 10,
    Big = 11,
    Room = 12,
    Head = 13,
    Span = 14,
    Kind = 15,
    Strings = 16,
    Image = 17,
    Many = 18,
    End = 19,
    Overlap = 21,
    Names = 23,
}

impl Reason {
    // The number that C gets.
    pub fn number(self) -> usize
        ensures { result ≡ number_of self }
    {
        self as usize
    }

    // The refusal for it, at a place; 0 where none is named.
    pub fn at(self, place: usize) -> Refusal
        ensures { result ≡ record { reason = self; place = place } }
    {
        Refusal {
            reason: self,
            place,
        }
    }
}

// A refusal: why, and the place, 0 where none is named.
#[derive(Clone, Copy)]
pub struct Refusal {
    pub reason: Reason,
    pub place: usize,
}
