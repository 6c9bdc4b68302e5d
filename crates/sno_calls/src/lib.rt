//! What the calls from C do: `snobol4_c` exports them, and judges what they are given.
//!
//! A caller lends the bytes of the texts, and two rooms: for what is written, and for the line that tells what went wrong. What
//! doesn't fit ends the call as a writer that fails does. `work` does a job of the interpreter over these, with the reader of
//! `input` and the writers of `room`, and `listing` lists a program.
//!
//! Nothing is kept from call to call but by a matcher, whose owner is the caller. It holds the box of a `search`, which is taken
//! apart for C (`loose`), so that its address alone is left (`handle`), and made again in each call.
#![tactic(auto)]

ghost use Rattle.std.specs.Prelude.{◌≡◌, true, false, None, Some, IfSome, IsSome};

mod handle;
mod input;
mod listing;
mod loose;
mod room;
mod search;
mod work;

pub use handle::Handle;
pub use listing::tell_listing;
use loose::Loose;
pub use search::{Search, begin};
use std::alloc::Global;
use std::mem::replace;
pub use work::{obey, refuse};

/// How a call ended.
#[repr(C)]
#[derive(Drop)]
pub struct Told {
    /// The status of the program whose job was done, 64 for a call that was given what it may not be given.
    pub status: u32,
    /// How many bytes of the output were written.
    pub written: usize,
    /// How many bytes were written of the line that tells what went wrong.
    pub told: usize,
}

/// A listing that stays from call to call, or none: before the first call it is all zeros. It isn't `Drop`, so no call can
/// let go of a listing but by taking it out.
#[repr(C)]
pub struct Matcher {
    /// The listing's address.
    pub handle: Handle,
    /// Whether there is one.
    pub held: bool,
    ghost live: { held ≡ true → IsSome handle.value },
    ghost free: { held ≡ false → handle.value ≡ None },
}

impl Matcher {
    /// Takes the listing out, which leaves none.
    pub fn take(&mut self, alloc: Global) -> Option<Box<Search>>
        ensures none { result ≡ None → self.old.held ≡ false }
        ensures some { IfSome result (λ search. (self.old.held ≡ true) × (self.old.handle.value ≡ Some search.value)) }
        ensures left { self.new.held ≡ false }
    {
        let none = Matcher {
            handle: Handle::none(),
            held: false,
        };
        let Matcher { handle, held } = replace(self, none);
        if !held {
            handle.gone();
            return None;
        }
        Some(handle.into_loose(alloc).into_box())
    }

    /// Puts a listing in the place of none.
    pub fn put(&mut self, search: Box<Search>)
        requires { self.old.held ≡ false }
        ensures held { self.new.held ≡ true }
        ensures value { self.new.handle.value ≡ Some search.value }
    {
        let some = Matcher {
            handle: Handle::of(Loose::of(search)),
            held: true,
        };
        let Matcher { handle, held: _ } = replace(self, some);
        handle.gone();
    }
}
