//! Lists of elements and of numbers, and the copy of an element.

use crate::Fe;
use lists::{List, OutOfMemory, TryCopy};
use std::alloc::Global;

/// A list of elements, which contracts see as a list.
pub type FeList = List<Fe>;

/// A list of numbers of 32 bits, which contracts see as a list.
pub type NumberList = List<u32>;

impl TryCopy for Fe {
    fn copy(&self, _alloc: Global) -> Result<Fe, OutOfMemory> {
        Ok(*self)
    }
}
