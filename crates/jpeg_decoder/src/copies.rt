//! Copies of lists that may be missing.
ghost use Rattle.std.specs.Prelude.{◌≡◌, IfOk, map, option_map};

use std::alloc::{AllocError, Global};

/// Copies a list, if there is one. The only error is a refused allocation.
pub fn copied_list<T: Copy>(
    alloc: Global,
    list: &Option<Vec<T>>,
) -> Result<Option<Vec<T>>, AllocError>
    ensures { IfOk result
        (λ copy. option_map (λ v. v.items) copy ≡ option_map (λ v. v.items) list.now) }
{
    match list {
        Some(list) => Ok(Some(Vec::from_slice(alloc, list)?)),
        None => Ok(None),
    }
}

/// Copies the lists of four components, of those that have one. The only error is a refused
/// allocation.
pub fn copied_lists<T: Copy>(
    alloc: Global,
    lists: &[Option<Vec<T>>; 4],
) -> Result<[Option<Vec<T>>; 4], AllocError>
    ensures { IfOk result (λ copies. map (λ p. option_map (λ v. v.items) p) copies
        ≡ map (λ p. option_map (λ v. v.items) p) lists.now) }
{
    Ok([
        copied_list(alloc, &lists[0])?,
        copied_list(alloc, &lists[1])?,
        copied_list(alloc, &lists[2])?,
        copied_list(alloc, &lists[3])?,
    ])
}
