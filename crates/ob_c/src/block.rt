//! What C holds of a block.

ghost use Rattle.std.specs.Prelude.{◌≡◌, ℕ, List, IsSome, is_some, Option, Some, None, option_map};
ghost use Rattle.std.specs.Borrow.{sem};
ghost use Rattle.ob_c.specs.Held.{held, bytes_row};

use crate::loose::Loose;
use bytes::Bytes;
use std::alloc::Global;
use std::marker::Model;
use std::ptr::null_mut;

/// A block of bytes of C's, which makes it as `{0}`: none yet. The writes that share it keep its memory alive.
///
/// Each export takes it by `&mut`, also where the header has `const`: what a pointer owns can be reached from there alone.
#[repr(C)]
#[derive(Drop)]
pub struct Block {
    at: *mut u8,
    ghost value: { Option (List ℕ) },
}

impl Model for Block {
    ghost also_owns = { λ b. held bytes_row b.at b.value };
}

// Its bytes may go to another thread, and C gives it to one call at a time.
unsafe impl Send for Block {}

impl Block {
    ghost use Rattle.ob_c.specs.Reaching.{LendsBytes};

    /// Takes the bytes out, if there is one.
    pub(crate) fn bytes(&mut self, alloc: Global) -> Option<Box<Bytes>>
        ensures taken { option_map (λ block. block.value) result ≡ self.old.value }
        ensures none { self.new.value ≡ None }
    {
        if !self.is_open() {
            return None;
        }
        Some(self.take(alloc).into_box())
    }

    /// Puts bytes in.
    pub(crate) fn keep(&mut self, block: Box<Bytes>)
        ensures { self.new.value ≡ Some block.value }
    {
        self.put(Loose::of(block));
    }

    /// Whether it holds bytes.
    pub(crate) fn is_open(&mut self) -> bool
        ensures { (result ≡ is_some self.old.value) × (self.new ≡ self.old) }
    {
        !self.at.is_null()
    }

    /// The bytes, in their place: the block is not written.
    pub(crate) fn reach(&mut self) -> &mut Bytes
        requires { IsSome self.old.value }
        ensures* writes_back { sem 𝓛 (LendsBytes self.entry result) }
        ensures value { self.old.value ≡ Some result.now }
    {
        unsafe { &mut *(self.at as *mut Bytes) }
    }

    /// Takes the bytes out as its pointer.
    fn take(&mut self, alloc: Global) -> Loose<Bytes, Global>
        requires { IsSome self.old.value }
        ensures { (self.old.value ≡ Some result.value) × (self.new.value ≡ None) }
    {
        let at = self.at as *mut Bytes;
        self.at = null_mut();
        Loose { at, alloc }
    }

    /// Puts the pointer of bytes in.
    fn put(&mut self, loose: Loose<Bytes, Global>)
        ensures { self.new.value ≡ Some loose.value }
    {
        let Loose { at, alloc: _ } = loose;
        self.at = at as *mut u8;
    }
}
