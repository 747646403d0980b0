//! A place at a bell.

use crate::bell::Bell;
use std::marker::PhantomData;

/// Whoever has it has told at a bell that they are to wait there. It cannot be dropped: one sleeps by it, at this bell and
/// no other.
pub struct Place<B: Bell> {
    of: PhantomData<B>,
}

impl<B: Bell> Place<B> {
    pub fn new() -> Place<B> {
        Place { of: PhantomData }
    }

    pub fn leave(self) {
        let Place { of: _ } = self;
    }
}
