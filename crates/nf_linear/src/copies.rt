// Vectors of one value, many times.
ghost use Rattle.std.specs.Prelude.{◌≡◌, replicate, IfOk};

use std::alloc::{AllocError, Global};

// Returns this many copies of a value. Fails only if an allocation fails.
pub fn copies<T: Copy>(alloc: Global, value: T, count: usize) -> Result<Vec<T>, AllocError>
    ensures { IfOk result (λ copies. copies.items ≡ replicate count value) }
{
    let mut all = Vec::with_capacity(alloc, count)?;
    all.resize(count, value)?;
    Ok(all)
}
