ghost use Rattle.std.specs.Prelude.{◌≡◌, IfOk, nat_lt};
ghost use Rattle.forest.specs.Forests.{depth, forest};
ghost use Rattle.forest.specs.Stores.{picked};

use crate::level::Level;
use forest::Store;
use std::alloc::{AllocError, Global};

/// So many elements may stand inside one another.
pub const MAX_NESTING: u32 = 64;

/// Whether more than `MAX_NESTING` elements stand inside one another in the trees that the handles name.
/// Trees may share parts, so it goes down level by level over sets of handles: each tree is looked at once for a level.
pub fn nested_too_deep<S: Store>(
    alloc: Global,
    store: &S,
    handles: &[u32],
) -> Result<bool, AllocError>
    ensures { IfOk result (λ deep. deep ≡ nat_lt 64 (depth (forest (picked (S.Store.means store.now).trees handles.now)))) }
{
    let mut level = Level::new(alloc, store)?;
    for handle in handles {
        level.mark(*handle);
    }
    for _depth in 0..MAX_NESTING {
        if !level.has_element() {
            return Ok(false);
        }
        level = level.next(alloc)?;
    }
    Ok(level.has_element())
}
