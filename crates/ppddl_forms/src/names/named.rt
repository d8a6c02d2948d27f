//! Declarations that have a name.

ghost use Rattle.std.specs.Prelude.{◌≡◌, IfOk};

use ppddl_model::{ObjectDecl, Param, PredicateDecl};
use std::alloc::AllocError;

/// What is declared under a name, and can be copied.
pub(super) trait Named: Drop {
    ghost use Rattle.ppddl_model.specs.State.{Name};

    /// Its name.
    ghost name_of: { Self → Name };

    /// Its name.
    fn name(&self) -> &[u8]
        ensures { result.now ≡ name_of self.now };

    /// A copy. It is refused for want of memory alone.
    fn copy(&self) -> Result<Self, AllocError>
        ensures { IfOk result (λ copy. copy ≡ self.now) };
}

impl Named for ObjectDecl {
    ghost name_of = { λ o. o.name };

    fn name(&self) -> &[u8] {
        self.name.as_slice()
    }

    fn copy(&self) -> Result<Self, AllocError> {
        self.clone()
    }
}

impl Named for PredicateDecl {
    ghost name_of = { λ d. d.name };

    fn name(&self) -> &[u8] {
        self.name.as_slice()
    }

    fn copy(&self) -> Result<Self, AllocError> {
        self.clone()
    }
}

impl Named for Param {
    ghost name_of = { λ p. p.name };

    fn name(&self) -> &[u8] {
        self.name.as_slice()
    }

    fn copy(&self) -> Result<Self, AllocError> {
        self.clone()
    }
}
