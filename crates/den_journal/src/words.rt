// Words of regions, made before they are written.
ghost use Rattle.std.specs.Prelude.{◌≡◌, IfOk};
ghost use Rattle.den_journal.specs.Drafts.{anew_words};

use den_codec::Word;
use den_model::Blob;
use std::alloc::{AllocError, Global};

// The word of a region. The buffer's memory is used again.
fn word_of<R: Word>(alloc: Global, buffer: &mut Vec<u8>, region: &R) -> Result<Blob, AllocError>
    ensures word { IfOk result (λ b. b ≡ R.word region.now) }
    ensures fits { IfOk result (λ b. R.fits region.now) }
{
    buffer.clear();
    region.write(buffer)?;
    Blob::of(alloc, buffer.as_slice())
}

// The words of a region and of another behind it, if there is one.
pub(crate) fn words_of<R: Word>(
    alloc: Global,
    buffer: &mut Vec<u8>,
    region: &R,
    rest: &Option<R>,
) -> Result<Vec<Blob>, AllocError>
    ensures words { IfOk result (λ list. list.items ≡ anew_words R.word region.now rest.now) }
    ensures fits { IfOk result (λ list. R.fits region.now) }
{
    let mut words = Vec::with_capacity(alloc, 2)?;
    words.push(word_of(alloc, buffer, region)?)?;
    if let Some(rest) = rest {
        words.push(word_of(alloc, buffer, rest)?)?;
    }
    Ok(words)
}
