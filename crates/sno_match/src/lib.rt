//! The resumable matcher: one event after another of the search for a pattern in a subject.
//!
//! A pattern's number is the first goal (`goal`), and is matched from a start. The stack of resumption points
//! (`points`) has what is still to be tried, the newest first: in `shared`, which is in use, the points share their
//! lists of goals (`records`); in `copied`, which stands beside it, each has its own. `steps` finds what the step of the newest
//! point's first goal comes to, which is a `plan` and is carried out at once, by one operation of the stack; `moves`
//! counts the step; `silent` takes steps that tell nothing one after another, with the newest point in hand (`hand`);
//! `engine` is the loop over moves and starts, up to the next event (`event`). `direct` finds a first way, or that there is
//! none, with no engine, where nothing is gone back to. `laws` has what is true of every match.
#![tactic(auto)]

mod arb;
mod asked;
mod bytes;
mod choices;
mod copied;
mod direct;
mod doubt;
mod engine;
mod event;
mod goal;
mod hand;
mod heads;
mod laws;
mod moves;
mod plan;
mod points;
mod records;
mod shared;
mod side_list;
mod sides;
mod silent;
mod snapshot;
mod starts;
mod steps;
mod straight;
mod subject;

pub use copied::CopiedGoals;
pub use direct::{Direct, DirectWay, direct_way};
pub use engine::Engine;
pub use event::{Event, Pending};
pub use goal::{Goal, Mark, Top};
pub use laws::{cuts_end, none_begins, quiet_ways, search_rows, told_in_order};
pub use points::Points;
pub use shared::SharedGoals;

/// The matcher in use.
pub type Matcher = Engine<SharedGoals>;
