//! What is true of the meaning of programs. Each law stands on a function without a body, so that it is proved with the
//! crate.
ghost use Rattle.snobol.specs.Turns.{SessionsEnd, ChainsEnd};

/// A match and a listing are the same with more turns than their definitions count: each ends by itself.
pub fn sessions_end()
    ensures { SessionsEnd }
{}

/// A chain of statements is the same with more turns, unless it ends for want of turns.
pub fn chains_end()
    ensures { ChainsEnd }
{}
