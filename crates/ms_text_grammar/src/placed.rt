//! Type uses with their places.

use crate::surface::TypeUse;

/// A type use, and the place of its `(type`.
#[derive(Drop)]
pub struct Placed {
    pub at: usize,
    pub sig: TypeUse,
}
