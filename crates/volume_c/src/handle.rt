//! The handle that C keeps.

ghost use Rattle.std.specs.Prelude.{◌≡◌, Option, Some, None, is_some, IsSome, option_map, box_value};
ghost use Rattle.std.specs.Coded.{coded_option};
ghost use Rattle.volume_c.specs.declared.actor.Held.{Held};
ghost use Rattle.volume_c.specs.Sealed.{held_coded, sealed_owns};

use crate::actor::Held;
use crate::parts::Parts;
use std::alloc::{AllocError, Global};
use std::marker::Model;
use std::mem::replace;
use std::ptr::null_mut;

/// The memory of an actor, as an opaque field.
#[repr(C)]
#[derive(Drop)]
pub struct Seal {
    at: *mut u8,
    alloc: Global,
    pub ghost held: { Option Held } by { coded_option held_coded },
}

impl Model for Seal {
    ghost also_owns = { λ h. sealed_owns h.alloc h.at h.held };
}

unsafe impl Send for Seal {}

impl Seal {
    pub fn empty(alloc: Global) -> Seal
        ensures { result.held ≡ None }
    {
        Seal {
            at: null_mut(),
            alloc,
        }
    }

    pub fn of_parts(parts: Parts<Held, Global>) -> Seal
        ensures { result.held ≡ Some parts.value }
    {
        let Parts { ptr, alloc } = parts;
        Seal {
            at: ptr as *mut u8,
            alloc,
        }
    }

    pub fn into_parts(self) -> Parts<Held, Global>
        requires { IsSome self.held }
        ensures { Some result.value ≡ self.held }
    {
        let Seal { at, alloc } = self;
        Parts {
            ptr: at as *mut Held,
            alloc,
        }
    }
}

/// A handle that C keeps: all zeros before it holds an actor, and after the actor is freed.
#[repr(C)]
#[derive(Drop)]
pub struct Handle {
    seal: Seal,
    live: bool,
    pub ghost tied: { is_some seal.held ≡ live },
}

impl Handle {
    /// Whether it holds an actor.
    pub fn is_live(&self) -> bool
        ensures { result ≡ is_some self.now.seal.held }
    {
        self.live
    }

    /// Takes the actor out, and leaves nothing.
    pub fn take(&mut self, alloc: Global) -> Option<Box<Held>>
        ensures actor { option_map box_value result ≡ self.old.seal.held }
        ensures nothing { self.new.seal.held ≡ None }
    {
        let Handle { seal, live } = replace(self, Handle::empty(alloc));
        if live {
            Some(seal.into_parts().into_box())
        } else {
            None
        }
    }

    /// Nothing.
    pub fn empty(alloc: Global) -> Handle
        ensures { result.seal.held ≡ None }
    {
        Handle {
            seal: Seal::empty(alloc),
            live: false,
        }
    }

    /// Puts an actor in.
    pub fn put(&mut self, held: Box<Held>)
        requires { self.old.seal.held ≡ None }
        ensures { self.new.seal.held ≡ Some (box_value held) }
    {
        self.seal = Seal::of_parts(Parts::of(held));
        self.live = true;
    }
}
