//! Values that can be copied, unless memory runs out.
ghost use Rattle.std.specs.Prelude.{◌≡◌, IfOk};

use crate::memory::NoMemory;

/// A copy that equals its source.
pub trait Duplicate: Drop {
    fn duplicate(&self) -> Result<Self, NoMemory>
        ensures { IfOk result (λ x. x ≡ self.now) };
}

impl Duplicate for u32 {
    fn duplicate(&self) -> Result<u32, NoMemory> {
        Ok(*self)
    }
}

impl Duplicate for u64 {
    fn duplicate(&self) -> Result<u64, NoMemory> {
        Ok(*self)
    }
}

impl Duplicate for bool {
    fn duplicate(&self) -> Result<bool, NoMemory> {
        Ok(*self)
    }
}

impl<T: Duplicate> Duplicate for Option<T> {
    fn duplicate(&self) -> Result<Option<T>, NoMemory> {
        match self {
            None => Ok(None),
            Some(x) => Ok(Some(x.duplicate()?)),
        }
    }
}
