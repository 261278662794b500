//! A value with several owners.
ghost use Rattle.std.specs.Prelude.{◌≡◌, IfOk, IfErr};
ghost use Rattle.std.specs.Arc.{arc_value};

use crate::Exact;
use std::alloc::{AllocError, AllocFailed, Global};
use std::marker::Model;
use std::sync::Arc;

/// A value that all its clones share. A contract sees the value, and nothing of who shares it.
#[derive(Drop)]
pub struct Shared<T> {
    arc: Arc<T>,
}

impl<T> Model for Shared<T> {
    ghost use Rattle.std.specs.Arc.{arc_value};

    ghost Value = { T };

    ghost view = { λ s. arc_value s.arc };
}

impl<T> Shared<T> {
    /// Makes the first owner of the value, which comes back where memory is wanting.
    pub fn new(alloc: Global, value: T) -> Result<Shared<T>, AllocFailed<T>>
        ensures ok { IfOk result (λ shared. shared ≡ value) }
        ensures err { IfErr result (λ e. e.value ≡ value) }
    {
        Ok(Shared {
            arc: Arc::new(alloc, value)?,
        })
    }

    /// The value.
    pub fn get(&self) -> &T
        ensures { result.now ≡ self.now }
    {
        &self.arc
    }
}

/// Another owner of the same value. It takes no memory, and fails only where the count of owners is
/// full.
impl<T: Drop> Clone for Shared<T> {
    ghost is_clone = { λ s copy. copy ≡ s };

    fn clone(&self) -> Result<Shared<T>, AllocError> {
        Ok(Shared {
            arc: self.arc.clone()?,
        })
    }
}

impl<T: Drop> Exact for Shared<T> {
    ghost exact = { λ s copy same. same };
}
