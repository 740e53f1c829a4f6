//! Values with several owners.

ghost use Rattle.std.specs.Prelude.{◌≡◌, IfOk};
ghost use Rattle.std.specs.Arc.{arc_value};

use crate::Exact;
use std::alloc::{AllocError, Global};
use std::marker::Model;
use std::sync::Arc;

/// A value with several owners. Contracts see it as that value.
#[derive(Debug, Drop)]
pub struct Shared<T> {
    value: Arc<T, Global>,
}

impl<T> Model for Shared<T> {
    ghost use Rattle.std.specs.Arc.{arc_value};

    ghost Value = { T };

    ghost view = { λ s. arc_value s.value };
}

impl<T> Shared<T> {
    /// The value that the argument owns.
    pub fn new(value: Arc<T, Global>) -> Shared<T>
        ensures { result ≡ arc_value value }
    {
        Shared { value }
    }

    /// The owner of the value.
    pub fn as_arc(&self) -> &Arc<T, Global>
        ensures { arc_value result.now ≡ self.now }
    {
        &self.value
    }

    /// One more owner of the same value, of which nothing is copied. An error means that the count
    /// of owners is full.
    pub fn again(&self) -> Result<Shared<T>, AllocError>
        ensures { IfOk result (λ v. v ≡ self.now) }
    {
        let value = Arc::try_clone(&self.value)?;
        Ok(Shared { value })
    }
}

impl<T: Exact> Exact for Shared<T> {
    ghost is_one = { T.is_one };

    ghost eq = { T.eq };

    ghost exact = { T.exact };

    fn known(&self) {
        let value: &T = &self.value;
        value.known();
    }

    fn is_same(&self, other: &Shared<T>) -> bool {
        let value: &T = &self.value;
        value.is_same(&other.value)
    }

    /// One more owner. An error means that the count of owners is full.
    fn copied(&self, _alloc: Global) -> Result<Shared<T>, AllocError> {
        self.again()
    }
}
