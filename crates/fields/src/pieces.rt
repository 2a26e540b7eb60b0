ghost use Rattle.std.specs.Prelude.{◌≡◌, IfOk};
ghost use Rattle.fields.specs.Lists.{pieces, texts};

use std::alloc::{AllocError, Global};

/// What stands between the separators of `bytes`.
pub fn split<'a>(alloc: Global, bytes: &'a [u8], separator: u8) -> Result<Vec<&'a [u8]>, AllocError>
    ensures { IfOk result (λ v. texts v.items ≡ pieces separator bytes.now) }
{
    bytes.split(|byte| *byte == separator).collect(alloc)
}
