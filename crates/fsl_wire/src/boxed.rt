//! Puts values behind a pointer, so that a rare card doesn't make every card larger.
ghost use Rattle.std.specs.Prelude.{◌≡◌, IfOk};

use fsl_text::Memory;
use std::alloc::Global;
use std::marker::Model;

/// A value behind a pointer. Contracts see it as the value.
#[derive(Drop)]
pub struct Boxed<T> {
    value: Box<T>,
}

impl<T> Model for Boxed<T> {
    ghost Value = { T };

    ghost view = { λ b. b.value.value };
}

impl<T: Drop> Boxed<T> {
    /// Puts a value behind a pointer. `Memory` is the only error.
    pub fn of(alloc: Global, value: T) -> Result<Boxed<T>, Memory>
        ensures { IfOk result (λ boxed. boxed ≡ value) }
    {
        match Box::new(alloc, value) {
            Ok(value) => Ok(Boxed { value }),
            Err(_) => Err(Memory),
        }
    }

    /// Replaces the value. Takes no memory.
    pub fn set(&mut self, value: T)
        ensures { self.new ≡ value }
    {
        *self.value = value;
    }
}

impl<T> Boxed<T> {
    /// Returns the value.
    pub fn get(&self) -> &T
        ensures { result.now ≡ self.now }
    {
        &self.value
    }
}
