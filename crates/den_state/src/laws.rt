//! The law of snapshots, the contract of a function that does nothing.
ghost use Rattle.den_state.specs.Laws.{SnapshotsAreCarried};

use den_disk::Disk;

/// A snapshot that one state machine stored at its applied mark, and whose files another one put in its map's place, gives
/// that one the same pairs, expiries and mark, but for the keys that have expired.
pub fn snapshots_are_carried<D: Disk, E: Disk>()
    ensures { SnapshotsAreCarried D.Disk E.Disk }
{}
