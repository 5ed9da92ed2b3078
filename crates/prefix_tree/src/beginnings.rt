//! With how many same values prefixes begin.

ghost use Rattle.std.specs.Prelude.{◌≡◌, IfOk, slice_index_or};
ghost use Rattle.prefix_tree.specs.Alike.{BeginAlike};

use solid_model::{Memory, Prefix};
use std::alloc::Global;

/// The number at a place of a list, 0 beyond its end.
pub fn told(numbers: &[usize], at: usize) -> usize
    ensures { result ≡ slice_index_or numbers.now at 0 }
{
    if at < numbers.len() { numbers[at] } else { 0 }
}

/// With how many same values each prefix and the next one begin. An `Err` is out of memory.
pub fn alike(alloc: Global, prefixes: &[Prefix]) -> Result<Vec<usize>, Memory>
    ensures { IfOk result (λ alike. BeginAlike prefixes.now alike.items) }
{
    let mut alike = Vec::with_capacity(alloc, prefixes.len())?;
    for at in 1..prefixes.len() {
        alike.push(prefixes[at - 1].shared(&prefixes[at]))?;
    }
    Ok(alike)
}
