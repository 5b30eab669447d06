//! The arrays of flat code.
ghost use Rattle.std.specs.Prelude.{◌≡◌, ◌≤◌, IfOk, length, replicate};
ghost use Rattle.ssa_flatten.specs.Views.{no_array, with_shape, AreArrays};

use crate::same::least_same;
use crate::sofar::Touches;
use code_forms::{ArrayShape, FlatArray};
use sqlite_items::Items;
use std::alloc::{AllocError, Global};

/// So many arrays that aren't touched yet.
pub(crate) fn untouched(alloc: Global, count: usize) -> Result<Vec<Touches>, AllocError>
    ensures { IfOk result (λ touches. touches.items ≡ replicate count no_array) }
{
    let mut touches = Vec::with_capacity(alloc, count)?;
    for _ in 0..count {
        touches.push(Touches {
            touched: Items::new(alloc),
            copies: Items::new(alloc),
        })?;
    }
    Ok(touches)
}

/// The arrays with these shapes, of which this is known.
pub(crate) fn flat_arrays(
    alloc: Global,
    shapes: &[ArrayShape],
    touches: &[Touches],
) -> Result<Vec<FlatArray>, AllocError>
    requires long { length touches.now ≡ length shapes.now }
    requires few { length shapes.now ≤ 16 }
    ensures { IfOk result (λ arrays. AreArrays shapes.now touches.now arrays.items) }
{
    let mut arrays = Vec::with_capacity(alloc, shapes.len())?;
    for array in 0..shapes.len() {
        let same = least_same(shapes, array) as u32;
        arrays.push(flat_array(alloc, &shapes[array], same, &touches[array])?)?;
    }
    Ok(arrays)
}

// An array of this shape, of which this is known; `same` stands for all with the same index.
fn flat_array(
    alloc: Global,
    shape: &ArrayShape,
    same: u32,
    touches: &Touches,
) -> Result<FlatArray, AllocError>
    ensures { IfOk result (λ f. f ≡ with_shape shape.now same touches.now) }
{
    Ok(FlatArray {
        length: shape.length,
        start: shape.start,
        same,
        touched: Items::from_slice(alloc, touches.touched.as_slice())?,
        copies: Items::from_slice(alloc, touches.copies.as_slice())?,
    })
}
