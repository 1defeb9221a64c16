// Copies of entries.
ghost use Rattle.std.specs.Prelude.{◌≡◌, IfOk};

use den_codec::Entry;
use std::alloc::{AllocError, Global};

// The same entries over the same bytes, which are shared.
pub(crate) fn copied(alloc: Global, entries: &[Entry]) -> Result<Vec<Entry>, AllocError>
    ensures { IfOk result (λ copies. copies.items ≡ entries.now) }
{
    let mut copies = Vec::with_capacity(alloc, entries.len())?;
    for entry in entries {
        copies.push(entry.copy()?)?;
    }
    Ok(copies)
}
