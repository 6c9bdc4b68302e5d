//! What a caller in C holds of a matcher: its address.
ghost use Rattle.std.specs.Prelude.{◌≡◌, Option, None, Some, IsSome};
ghost use Rattle.sno_calls.specs.declared.search.Search.{Search};

use crate::loose::Loose;
use crate::search::Search;
use std::alloc::Global;
use std::marker::Model;
use std::ptr::null_mut;

/// The address of a listing, which the handle owns, or no address.
#[repr(C)]
pub struct Handle {
    at: *mut (),
    pub(crate) ghost value: { Option Search },
}

impl Model for Handle {
    ghost use Rattle.std.specs.Prelude.{Option};
    ghost use Rattle.sno_calls.specs.Owned.{owned_at};
    ghost use Rattle.sno_calls.specs.contracts.search.Search.{the_row};
    ghost use Rattle.sno_calls.specs.declared.search.Search.{Search};

    ghost also_owns = { λ h. owned_at the_row h.at h.value };
}

impl Handle {
    /// No address.
    pub fn none() -> Handle
        ensures { result.value ≡ None }
    {
        Handle { at: null_mut() }
    }

    /// The address of a listing.
    pub(crate) fn of(given: Loose<Search, Global>) -> Handle
        ensures { result.value ≡ Some given.value }
    {
        let Loose { at, alloc: _ } = given;
        Handle { at: at as *mut () }
    }

    /// The listing at the address.
    pub(crate) fn into_loose(self, alloc: Global) -> Loose<Search, Global>
        requires { IsSome self.value }
        ensures { self.value ≡ Some result.value }
    {
        let Handle { at } = self;
        Loose {
            at: at as *mut Search,
            alloc,
        }
    }

    /// Lets go of no address. One of a listing is taken apart by `into_loose`, or else stays.
    pub fn gone(self)
        requires { self.value ≡ None }
    {
        let Handle { at: _ } = self;
    }
}
