//! Values that several lists share.

ghost use Rattle.std.specs.Prelude.{◌≡◌, map, IfOk};
ghost use Rattle.std.specs.Arc.{arc_value};

use solid_model::Memory;
use std::alloc::Global;
use std::sync::Arc;

/// The same values, shared. An `Err` is out of memory.
pub fn share_all<T: Drop>(alloc: Global, values: &[Arc<T>]) -> Result<Vec<Arc<T>>, Memory>
    ensures { IfOk result (λ same.
        map (λ v. arc_value v) same.items ≡ map (λ v. arc_value v) values.now) }
{
    let mut same = Vec::with_capacity(alloc, values.len())?;
    for value in values {
        same.push(Arc::try_clone(value)?)?;
    }
    Ok(same)
}
