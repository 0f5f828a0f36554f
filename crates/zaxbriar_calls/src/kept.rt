//! A handle that a C program keeps between two calls.
ghost use Rattle.std.specs.Option.{MatchOption};
ghost use Rattle.std.specs.Prelude.{◌≡◌};
ghost use Rattle.std.specs.declared.option.Option.{Option};
ghost use Rattle.std.specs.declared.option.Option.TheVariants.{None, Some};
ghost use Rattle.zaxbriar_calls.specs.Kept.{kept_owns};
ghost use Rattle.zaxbriar_calls.specs.declared.handle.Handle.{Handle};

use crate::handle::Handle;
use crate::loose::Loose;
use std::alloc::Global;
use std::marker::{Model, Send};

/// No handle, which is all zeros, or a handle on the heap.
///
/// C has the two words, and never looks inside. It owns the handle as Rust owns a box: it hands on
/// the words as the last call left them, and uses no copy of them afterwards.
#[repr(C)]
pub struct Kept {
    at: *mut u8,
    used: u64,
    alloc: Global,
    pub ghost value: { Option Handle },
}

impl Model for Kept {
    ghost also_owns = { λ k. kept_owns k.alloc k.at k.used k.value };
}

impl Kept {
    /// Keeps a handle.
    pub fn of(handle: Box<Handle>) -> Kept
        ensures { result.value ≡ Some handle.value }
    {
        Kept::of_loose(Loose::of(handle))
    }

    /// Returns what is kept.
    pub fn into_box(self) -> Option<Box<Handle>>
        ensures { MatchOption result (self.value ≡ None) (λ b. self.value ≡ Some b.value) }
    {
        match self.into_loose() {
            Some(loose) => Some(loose.into_box()),
            None => None,
        }
    }

    /// Keeps none.
    pub fn none(alloc: Global) -> Kept
        ensures { result.value ≡ None }
    {
        Kept {
            at: std::ptr::null_mut(),
            used: 0,
            alloc,
        }
    }

    /// Keeps the handle behind a pointer.
    fn of_loose(loose: Loose<Handle, Global>) -> Kept
        ensures { result.value ≡ Some loose.value }
    {
        let Loose { at, alloc } = loose;
        Kept {
            at: at as *mut u8,
            used: 1,
            alloc,
        }
    }

    /// Returns the pointer to what is kept.
    fn into_loose(self) -> Option<Loose<Handle, Global>>
        ensures { MatchOption result (self.value ≡ None) (λ l. self.value ≡ Some l.value) }
    {
        let Kept { at, used, alloc } = self;
        if used == 1 {
            Some(Loose {
                at: at as *mut Handle,
                alloc,
            })
        } else {
            None
        }
    }
}

/// It may go to another thread, as its handle may.
unsafe impl Send for Kept {}

/// Takes a value to another thread.
fn moves<T: Send>(value: T) -> T
    ensures { result ≡ value }
{
    value
}

/// Takes a handle to another thread, which is allowed: a claim of `Send` is proved where it is
/// needed, as here.
pub fn moved(kept: Kept) -> Kept
    ensures { result.value ≡ kept.value }
{
    moves(kept)
}
