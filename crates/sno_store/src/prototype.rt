//! Prototypes of arrays: dimensions with commas between them.
ghost use Rattle.std.specs.Prelude.{◌≡◌, ◌+◌, min, option_map, filter_map, IfOk};
ghost use Rattle.std.specs.List.{slice_split};
ghost use Rattle.sno_store.specs.Arrays.{dimension_of, dimensions_of, element_count, is_comma};

use crate::dimension::Dimension;
use std::alloc::{AllocError, Global};

/// How many elements an array has at most (this profile).
pub(crate) const MOST_ELEMENTS: u64 = 1_000_000;

/// How many elements an array with this prototype has, where 1,000,001 stands for all numbers above the most that there
/// may be. Another text than a prototype has none. It takes no memory.
pub(crate) fn count_of(prototype: &[u8]) -> Option<u64>
    ensures { result ≡ option_map (λ dimensions. min (element_count dimensions) 1_000_001)
        (dimensions_of prototype.now) }
{
    let mut count = 1u64;
    'texts: for text in prototype.split(|byte| *byte == b',') {
        let dimension = Dimension::read(text)?;
        count = count
            .saturating_mul(dimension.size())
            .min(MOST_ELEMENTS + 1);
    }
    Some(count)
}

/// The dimensions of a prototype. Texts that are none are left out.
pub(crate) fn dimensions(alloc: Global, prototype: &[u8]) -> Result<Vec<Dimension>, AllocError>
    ensures { IfOk result (λ dimensions. dimensions.items
        ≡ filter_map dimension_of (slice_split is_comma prototype.now)) }
{
    let mut dimensions = Vec::new(alloc);
    'texts: for text in prototype.split(|byte| *byte == b',') {
        if let Some(dimension) = Dimension::read(text) {
            dimensions.push(dimension)?;
        }
    }
    Ok(dimensions)
}
