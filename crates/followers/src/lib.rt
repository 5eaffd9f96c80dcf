//! Readers that follow a history: each has its own document on its own thread, and waits for nobody.
//!
//! The writer sends the entries of its document by a `Feed`, through a ring of fixed capacity, and the `Follower` at the other end takes
//! them in one at a time. Entries share their operations, so all that a follower keeps of its own is its content.
#![tactic(auto)]

ghost use Rattle.std.specs.Prelude.{◌≡◌, ◌∷◌, List, [], None, IfOk};
ghost use Rattle.semantics.specs.Entries.{Entry as TheEntry};
ghost use Rattle.semantics.specs.WorldHistory.{BeginsWith};
ghost use Rattle.rtrb.specs.Ring.{IsPair, received, sent};
ghost use Rattle.followers.specs.Feeds.{IsFedFrom, IsFollowing};

mod fan_out;
mod feed;
mod follower;

use document::Document;
pub use fan_out::{Feeds, each_follower_shows_a_beginning};
pub use feed::Feed;
pub use follower::Follower;
use ids::Refusal;
use rtrb::RingBuffer;
use std::alloc::Global;

/// The two ends of a new ring with room for `room` entries: a feed that has sent nothing, and a follower with an empty history, whose only
/// member is the writer's number.
///
/// # Errors
/// `BadConfig` for the number 0, else `NoMemory` if allocation fails, as it must for a room beyond any memory.
pub fn new_ends(alloc: Global, room: usize, own: u32) -> Result<(Feed, Follower), Refusal>
    ensures pair { IfOk result (λ r. IsPair r.0.to r.1.from) }
    ensures fed { IfOk result (λ r. IsFedFrom [] r.0.next r.0.ahead.items (sent r.0.to)) }
    ensures members { IfOk result (λ r. r.1.document.members ≡ own ∷ []) }
    ensures entries { IfOk result (λ r. r.1.document.entries ≡ []) }
    ensures follows { IfOk result (λ r. IsFollowing r.1.document.entries r.1.kept (received r.1.from)) }
{
    let document = Document::new(alloc, &[own])?;
    let (to, from) = RingBuffer::new(alloc, room)?;
    Ok((Feed::new(alloc, to), Follower::new(document, from)))
}

/// What a follower shows is the beginning of the history of the document that feeds it, whenever the owner of both ends looks. The
/// preconditions are that feed and follower are the ends of one ring, that the feed was fed from one document, and that the follower took
/// in what came: `new_ends` ensures them, and `send` and `take_in` preserve them.
pub fn follower_shows_a_beginning(feed: &mut Feed, follower: &mut Follower)
    requires pair { IsPair feed.old.to follower.old.from }
    requires follows { IsFollowing follower.old.document.entries follower.old.kept (received follower.old.from) }
    ensures { (G : List TheEntry) → IsFedFrom G feed.old.next feed.old.ahead.items (sent feed.old.to)
        → BeginsWith G follower.old.document.entries }
{
    follower.from.slots_beside(&mut feed.to);
}
