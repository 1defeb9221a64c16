//! The files of a family, as docs/FORMATS.md gives them, for tests to compare with.
//!
//! These functions have no contracts: each would stand in the goals of every test that calls them.
use den_disk::{Family, MemDisk, Part, Place};

/// Pieces of bytes, one behind the other.
pub type Pieces = &'static [&'static [u8]];

/// The files of a family that was written anew: the head, the slot that it names with its regions, and the empty slot.
#[derive(Clone, Copy)]
pub struct Turn {
    pub head: &'static [u8],
    pub used: Part,
    pub other: Part,
    pub regions: Pieces,
}

/// Those behind the first time, and the third.
pub const IN_B: Turn = Turn {
    head: b"\x01",
    used: Part::B,
    other: Part::A,
    regions: &[],
};

/// Those behind the second time, and the fourth.
pub const IN_A: Turn = Turn {
    head: b"\0",
    used: Part::A,
    other: Part::B,
    regions: &[],
};

/// The bytes of a file.
pub fn file(disk: &MemDisk, family: Family, part: Part) -> &[u8] {
    disk.get(Place { family, part })
}

/// What follows a piece, if it stands in front.
pub fn cut<'a>(bytes: &'a [u8], piece: &[u8]) -> Option<&'a [u8]> {
    if bytes.starts_with(piece) {
        return bytes.get(piece.len()..);
    }
    None
}

/// What follows these pieces, if they stand in front.
pub fn behind<'a>(bytes: &'a [u8], pieces: Pieces) -> Option<&'a [u8]> {
    let mut rest = bytes;
    for piece in pieces {
        rest = cut(rest, piece)?;
    }
    Some(rest)
}

/// Whether a file is one chunk of these pieces and then zeros.
pub fn is_slot(file: &[u8], pieces: Pieces) -> bool {
    match behind(file, pieces) {
        None => false,
        Some(rest) => file.len() == 65_536 && rest.iter().all(|byte| *byte == 0),
    }
}

/// Whether the files of a family are these.
pub fn holds_turn(disk: &MemDisk, family: Family, turn: Turn) -> bool {
    file(disk, family, Part::Head) == turn.head
        && is_slot(file(disk, family, turn.used), turn.regions)
        && file(disk, family, turn.other).is_empty()
}
