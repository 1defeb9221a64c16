//! Laws of the definitions.
ghost use Rattle.den_embed.specs.Stopping.{EndsForGood};

/// A history that has ended stays so: each later call of it fails at the place where it ended, or has no entry for want of memory.
pub fn ends_for_good()
    ensures { EndsForGood }
{}
