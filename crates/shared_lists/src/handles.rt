ghost use Rattle.std.specs.Prelude.{◌≡◌, IfOk, IfErr, IfSome};

use byte_lists::Duplicate;
use std::alloc::{AllocError, Global};
use std::marker::Model;
use std::rc::Rc;

/// A value that copies share, and that is changed only where none does. Contracts see the value.
#[derive(Debug, Drop)]
pub struct Shared<T> {
    value: Rc<T, Global>,
}

impl<T> Model for Shared<T> {
    ghost Value = { T };

    ghost view = { λ s. s.value.value };
}

impl<T> Shared<T> {
    ghost use Rattle.std.specs.Borrow.{sem};
    ghost use Rattle.shared_lists.specs.Lending.{lends_value};

    /// The value.
    pub fn get(&self) -> &T
        ensures { result.now ≡ self.now }
    {
        self.value.as_ref()
    }

    /// The value, to write to, or None where a copy shares it.
    pub fn value_mut(&mut self) -> Option<&mut T>
        ensures* writes_back { sem 𝓛 (lends_value T.row self.entry result) }
        ensures value { IfSome result (λ value. value.now ≡ self.old) }
    {
        Rc::get_mut(&mut self.value)
    }
}

impl<T: Drop> Shared<T> {
    /// The value, which is moved.
    ///
    /// The error comes where there is no memory.
    pub fn new(alloc: Global, value: T) -> Result<Shared<T>, AllocError>
        ensures { IfOk result (λ shared. shared ≡ value) }
    {
        Ok(Shared {
            value: Rc::new(alloc, value)?,
        })
    }

    /// The value, which is moved, or the value again where there is no memory.
    pub(crate) fn new_or_back(alloc: Global, value: T) -> Result<Shared<T>, T>
        ensures ok { IfOk result (λ shared. shared ≡ value) }
        ensures err { IfErr result (λ back. back ≡ value) }
    {
        match Rc::new(alloc, value) {
            Ok(value) => Ok(Shared { value }),
            Err(failed) => Err(failed.value),
        }
    }

    /// The same value, which isn't copied.
    ///
    /// The error comes where it is shared by more than can be counted.
    pub fn share(&self) -> Result<Shared<T>, AllocError>
        ensures { IfOk result (λ shared. shared ≡ self.now) }
    {
        Ok(Shared {
            value: self.value.clone()?,
        })
    }
}

impl<T: Drop> Duplicate for Shared<T> {
    fn duplicate(&self, _alloc: Global) -> Result<Shared<T>, AllocError> {
        self.share()
    }
}
