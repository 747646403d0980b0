//! What C holds of a budget: a handle for each thread.

ghost use Rattle.std.specs.Prelude.{◌≡◌, IsSome, is_some, Option, Some, None, option_map};
ghost use Rattle.std.specs.Borrow.{sem};
ghost use Rattle.ob_c.specs.Held.{held};
ghost use Rattle.ob_covered.specs.Cover.{CoverValue};
ghost use Rattle.ob_covered.specs.contracts.cover.Cover.{the_row as cover_row};

use crate::loose::Loose;
use ob_covered::Cover;
use std::alloc::Global;
use std::marker::Model;
use std::ptr::null_mut;

/// One of the handles of a budget of C's, which makes it as `{0}`: none yet. Behind it is a cover that connections and other
/// handles are cut off.
#[repr(C)]
#[derive(Drop)]
pub struct Budget {
    at: *mut u8,
    ghost value: { Option CoverValue },
}

impl Model for Budget {
    ghost also_owns = { λ h. held cover_row h.at h.value };
}

// The cover behind it may go to another thread, and C gives it to one call at a time.
unsafe impl Send for Budget {}

impl Budget {
    ghost use Rattle.ob_c.specs.Reaching.{LendsCover};

    /// Takes the cover out, if there is one.
    pub(crate) fn cover(&mut self, alloc: Global) -> Option<Box<Cover>>
        ensures taken { option_map (λ cover. cover.value) result ≡ self.old.value }
        ensures none { self.new.value ≡ None }
    {
        if !self.is_open() {
            return None;
        }
        Some(self.take(alloc).into_box())
    }

    /// Puts a cover in.
    pub(crate) fn keep(&mut self, cover: Box<Cover>)
        ensures { self.new.value ≡ Some cover.value }
    {
        self.put(Loose::of(cover));
    }

    /// Whether it holds a cover.
    pub(crate) fn is_open(&mut self) -> bool
        ensures { (result ≡ is_some self.old.value) × (self.new ≡ self.old) }
    {
        !self.at.is_null()
    }

    /// The cover, in its place: the struct is not written.
    pub(crate) fn reach(&mut self) -> &mut Cover
        requires { IsSome self.old.value }
        ensures* writes_back { sem 𝓛 (LendsCover self.entry result) }
        ensures value { self.old.value ≡ Some result.now }
    {
        unsafe { &mut *(self.at as *mut Cover) }
    }

    /// Takes the cover out as its pointer.
    fn take(&mut self, alloc: Global) -> Loose<Cover, Global>
        requires { IsSome self.old.value }
        ensures { (self.old.value ≡ Some result.value) × (self.new.value ≡ None) }
    {
        let at = self.at as *mut Cover;
        self.at = null_mut();
        Loose { at, alloc }
    }

    /// Puts the pointer of a cover in.
    fn put(&mut self, loose: Loose<Cover, Global>)
        ensures { self.new.value ≡ Some loose.value }
    {
        let Loose { at, alloc: _ } = loose;
        self.at = at as *mut u8;
    }
}
