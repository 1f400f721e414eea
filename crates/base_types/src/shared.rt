//! A value that stands in several places and in memory once.

ghost use Rattle.std.specs.Prelude.{◌≡◌, IfOk};

use crate::memory::Memory;
use std::alloc::Global;
use std::marker::Model;
use std::rc::Rc;

/// An `Rc` that contracts see as its value. It is read alone, so what shares it never changes.
#[derive(Debug, Drop)]
pub struct Shared<T> {
    pointer: Rc<T>,
}

impl<T> Model for Shared<T> {
    ghost Value = { T };

    ghost coded = { T.code };

    ghost view = { λ s. s.pointer.value };
}

impl<T> Shared<T> {
    pub fn get(&self) -> &T
        ensures { result.now ≡ self.now }
    {
        self.pointer.as_ref()
    }
}

impl<T: Drop> Shared<T> {
    pub fn new(alloc: Global, value: T) -> Result<Shared<T>, Memory>
        ensures { IfOk result (λ s. s ≡ value) }
    {
        Ok(Shared {
            pointer: Rc::new(alloc, value)?,
        })
    }

    /// The same value, with no copy of it.
    pub fn share(&self) -> Result<Shared<T>, Memory>
        ensures { IfOk result (λ s. s ≡ self.now) }
    {
        Ok(Shared {
            pointer: self.pointer.clone()?,
        })
    }
}
