//! A value that only proofs read. It has no size, and nothing is copied at run time.
ghost use Rattle.std.specs.Prelude.{◌≡◌};
ghost use Rattle.std.specs.Borrow.{ftrue};

use std::marker::{Model, PhantomData};

/// What a value was when it was noted. Clauses read it as `value`.
#[derive(Drop)]
pub struct GhostCopy<T> {
    of: PhantomData<T>,
    pub ghost value: { T },
}

impl<T> Model for GhostCopy<T> {
    ghost also_owns = { λ _. ftrue };
}

// It owns nothing.
unsafe impl<T: Send> Send for GhostCopy<T> {}

impl<T> GhostCopy<T> {
    /// Notes what the value is now.
    pub fn of(value: &T) -> GhostCopy<T>
        ensures { result.value ≡ value.now }
    {
        GhostCopy { of: PhantomData }
    }
}
