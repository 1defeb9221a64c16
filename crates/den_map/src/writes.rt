//! What the entries of a chunk wrote so far, before it is record_done out on the map.
ghost use Rattle.std.specs.Prelude.{◌≡◌, [], option_copied, OnOk};
ghost use Rattle.den_model.specs.Table.{at};
ghost use Rattle.den_map.specs.Written.{noted};

use den_codec::{Blob, JournalRecord};
use den_table::ByteMap;
use std::alloc::{AllocError, Global};
use std::marker::Model;

// The keys that were written, each with its value, or with none where it was deleted.
#[derive(Drop)]
pub(crate) struct Writes {
    values: ByteMap<Option<Blob>>,
}

impl Model for Writes {
    ghost use Rattle.den_map.specs.Written.{Written};

    ghost Value = { Written };

    ghost view = { λ w. w.values };
}

impl Writes {
    // No key was written.
    pub(crate) fn none(alloc: Global) -> Writes
        ensures { result ≡ [] }
    {
        Writes {
            values: ByteMap::new(alloc),
        }
    }

    // What was written at the key, if it was.
    pub(crate) fn get(&self, key: &[u8]) -> Option<&Option<Blob>>
        ensures { option_copied result ≡ at self.now key.now }
    {
        self.values.get(key)
    }

    // Notes what a record of an entry writes.
    pub(crate) fn note(
        &mut self,
        alloc: Global,
        journaled: &JournalRecord,
    ) -> Result<(), AllocError>
        ensures { OnOk result (self.new ≡ noted self.old journaled.now) }
    {
        match journaled {
            JournalRecord::Insert { key, value, .. } => {
                self.values
                    .insert(alloc, key.as_slice(), Some(value.copy()?))?;
            }
            JournalRecord::Delete { key, .. } => {
                self.values.insert(alloc, key.as_slice(), None)?;
            }
            _ => {}
        }
        Ok(())
    }
}
