//! The clock of a test.
ghost use Rattle.std.specs.Prelude.{IfOk};
ghost use Rattle.frame_links.specs.ClnpBase.Moments.{AreMoments};

use std::alloc::{AllocError, Global};

/// The moment at which a clock stands.
pub(crate) fn moments(alloc: Global) -> Result<Vec<u64>, AllocError>
    ensures { IfOk result (λ list. AreMoments list.items) }
{
    Vec::from_slice(alloc, &[0])
}
