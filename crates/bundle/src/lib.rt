// Bundles: what the calls hand back, and an entry record. The definitions and theorems are in specs/, the code is in `bundle_reader` and `normal_form`.
// A call returns a value or a `Refusal`. C gets the numbers of either, which the records of numbers here have: each is made from the call's result.
// The numbers are cast by `as`: `usize` and `u64` both have 64 bits here, and std has no `From` between them.
#![tactic(auto)]

ghost use Rattle.std.specs.Prelude.{◌≡◌};
ghost use Rattle.bundle.specs.Results.{checked_of, picked_of, picked_each_of, source_number, found_of, located_of, written_of};

use wire::Refusal;

// ---- values

// The image that a pick finds: its entry's index, its position and its size.
#[derive(Clone, Copy)]
pub struct Image {
    pub index: usize,
    pub position: usize,
    pub size: usize,
}

// What a pick for each of several device names finds: how many slots were written, the word whose bit i is set where some name took entry i, and how many
// entries are taken. The word is a number, as the definition `pick_each` has it and C gets it.
#[derive(Clone, Copy)]
pub struct Picks {
    pub slots: usize,
    pub word: u64,
    pub taken: usize,
}

// An entry record: the part of a buffer that holds an entry's ID, and the part of a buffer that holds its image.
// A row of a bundle's table is one: both buffers are the bundle.
#[repr(C)]
#[derive(Clone, Copy)]
pub struct EntryRecord {
    pub id_start: usize,
    pub id_len: usize,
    pub image_start: usize,
    pub image_len: usize,
}

// What comes of two bundles, one after the other: where the first says NONE, the pick from the second; else the pick from the first, and the check of the
// second.
#[derive(Clone, Copy)]
pub enum PickedInTurn {
    First {
        picked: Result<Image, Refusal>,
        checked: Result<usize, Refusal>,
    },
    Second(Result<Image, Refusal>),
}

// One of the two bundles of a lookup, under its number.
#[derive(Clone, Copy, PartialEq, Eq)]
pub enum Source {
    Patch = 1,
    Main = 2,
}

impl Source {
    // The number that C gets.
    pub fn number(self) -> usize
        ensures { result ≡ source_number self }
    {
        self as usize
    }
}

// The image that a lookup finds: the bundle that holds it, its position there and its size.
#[derive(Clone, Copy)]
pub struct SourceImage {
    pub source: Source,
    pub position: usize,
    pub size: usize,
}

// A refusal of a lookup, and the bundle that the check refuses: QUERY and NONE concern none.
#[derive(Clone, Copy)]
pub struct LookupRefusal {
    pub refusal: Refusal,
    pub source: Option<Source>,
}

// ---- the numbers of a result

// What a check returns: the refusal's number and place, or 0, 0 and the entry count.
#[derive(Clone, Copy, PartialEq, Eq)]
pub struct Checked {
    pub number: usize,
    pub place: usize,
    pub count: usize,
}

// What a pick returns: the refusal's number and place, or 0, 0 and the entry's index with its image's position and size.
#[derive(Clone, Copy, PartialEq, Eq)]
pub struct Picked {
    pub number: usize,
    pub place: usize,
    pub index: usize,
    pub position: u64,
    pub size: u64,
}

// What a pick for each of several device names returns: the refusal's number and place, or 0, 0, how many slots were written, the word whose bit i is set
// where some name took entry i, and how many entries are taken.
#[derive(Clone, Copy, PartialEq, Eq)]
pub struct PickedEach {
    pub number: usize,
    pub place: usize,
    pub slots: usize,
    pub word: u64,
    pub taken: usize,
}

// What a lookup in two bundles returns: the refusal's number and place, and the bundle that the check refuses, 1 the first or 2 the second; or 0, 0, the
// bundle that holds the image, with the image's position in it and its size.
#[derive(Clone, Copy, PartialEq, Eq)]
pub struct Found {
    pub number: usize,
    pub place: usize,
    pub bundle: usize,
    pub position: u64,
    pub size: u64,
}

// What a call by an entry's index returns: the refusal's number and place, or 0, 0, the position and size of the entry's image, and where its ID stands.
#[derive(Clone, Copy, PartialEq, Eq)]
pub struct Located {
    pub number: usize,
    pub place: usize,
    pub position: u64,
    pub size: u64,
    pub id_position: usize,
    pub id_length: usize,
}

// What a call that writes a bundle returns: the refusal's number and place, or 0, 0 and the length written.
#[derive(Clone, Copy, PartialEq, Eq)]
pub struct Written {
    pub number: usize,
    pub place: usize,
    pub length: usize,
}

impl From<Result<usize, Refusal>> for Checked {
    ghost from_gives = { λ checked numbers. numbers ≡ checked_of checked };

    fn from(checked: Result<usize, Refusal>) -> Checked {
        match checked {
            Ok(count) => Checked {
                number: 0,
                place: 0,
                count,
            },
            Err(refusal) => Checked {
                number: refusal.reason.number(),
                place: refusal.place,
                count: 0,
            },
        }
    }
}

impl From<Result<Image, Refusal>> for Picked {
    ghost from_gives = { λ picked numbers. numbers ≡ picked_of picked };

    fn from(picked: Result<Image, Refusal>) -> Picked {
        match picked {
            Ok(image) => Picked {
                number: 0,
                place: 0,
                index: image.index,
                position: image.position as u64,
                size: image.size as u64,
            },
            Err(refusal) => Picked {
                number: refusal.reason.number(),
                place: refusal.place,
                index: 0,
                position: 0,
                size: 0,
            },
        }
    }
}

impl From<Result<Picks, Refusal>> for PickedEach {
    ghost from_gives = { λ picked numbers. numbers ≡ picked_each_of picked };

    fn from(picked: Result<Picks, Refusal>) -> PickedEach {
        match picked {
            Ok(picks) => PickedEach {
                number: 0,
                place: 0,
                slots: picks.slots,
                word: picks.word,
                taken: picks.taken,
            },
            Err(refusal) => PickedEach {
                number: refusal.reason.number(),
                place: refusal.place,
                slots: 0,
                word: 0,
                taken: 0,
            },
        }
    }
}

impl From<Result<SourceImage, LookupRefusal>> for Found {
    ghost from_gives = { λ found numbers. numbers ≡ found_of found };

    fn from(found: Result<SourceImage, LookupRefusal>) -> Found {
        match found {
            Ok(found) => Found {
                number: 0,
                place: 0,
                bundle: found.source.number(),
                position: found.position as u64,
                size: found.size as u64,
            },
            Err(refused) => Found {
                number: refused.refusal.reason.number(),
                place: refused.refusal.place,
                bundle: refused.source.map_or(0, Source::number),
                position: 0,
                size: 0,
            },
        }
    }
}

impl From<Result<EntryRecord, Refusal>> for Located {
    ghost from_gives = { λ located numbers. numbers ≡ located_of located };

    fn from(located: Result<EntryRecord, Refusal>) -> Located {
        match located {
            Ok(entry) => Located {
                number: 0,
                place: 0,
                position: entry.image_start as u64,
                size: entry.image_len as u64,
                id_position: entry.id_start,
                id_length: entry.id_len,
            },
            Err(refusal) => Located {
                number: refusal.reason.number(),
                place: refusal.place,
                position: 0,
                size: 0,
                id_position: 0,
                id_length: 0,
            },
        }
    }
}

impl From<Result<usize, Refusal>> for Written {
    ghost from_gives = { λ written numbers. numbers ≡ written_of written };

    fn from(written: Result<usize, Refusal>) -> Written {
        match written {
            Ok(length) => Written {
                number: 0,
                place: 0,
                length,
            },
            Err(refusal) => Written {
                number: refusal.reason.number(),
                place: refusal.place,
                length: 0,
            },
        }
    }
}
