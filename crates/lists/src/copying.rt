//! Copying that can fail for want of memory.

ghost use Rattle.std.specs.Prelude.{◌≡◌, IfOk};

use crate::OutOfMemory;
use std::alloc::Global;

/// A value of which an equal one can be made, where there is memory for it.
pub trait TryCopy: Sized {
    /// An equal value. The error is want of memory.
    fn copy(&self, alloc: Global) -> Result<Self, OutOfMemory>
        ensures { IfOk result (λ copied. copied ≡ self.now) };
}

impl TryCopy for bool {
    fn copy(&self, _alloc: Global) -> Result<bool, OutOfMemory> {
        Ok(*self)
    }
}

impl TryCopy for u32 {
    fn copy(&self, _alloc: Global) -> Result<u32, OutOfMemory> {
        Ok(*self)
    }
}
