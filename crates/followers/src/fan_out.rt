//! All feeds of a document.

ghost use Rattle.std.specs.Prelude.{◌≡◌, ◌∷◌, List, [], IfOk, MatchResult};
ghost use Rattle.semantics.specs.Entries.{Entry as TheEntry};
ghost use Rattle.semantics.specs.WorldHistory.{BeginsWith};
ghost use Rattle.followers.specs.Feeds.{AreFed, HasCome, HasEnd, ShowsWhatCame};

use crate::feed::Feed;
use crate::follower::Follower;
use crate::{follower_shows_a_beginning, new_ends};
use document::Document;
use ids::Refusal;
use std::alloc::{AllocError, Global};

/// The feeds of all followers of one document.
#[derive(Drop)]
pub struct Feeds {
    feeds: Vec<Feed>,
}

impl Feeds {
    /// No feeds.
    pub fn new(alloc: Global) -> Feeds
        ensures { result.feeds.items ≡ [] }
    {
        Feeds {
            feeds: Vec::new(alloc),
        }
    }

    /// A new follower of the document of this number, through a ring with room for `room` entries. It has taken in nothing yet.
    ///
    /// # Errors
    /// As `new_ends`. No feed was added then.
    pub fn follower(&mut self, alloc: Global, room: usize, own: u32) -> Result<Follower, Refusal>
        ensures fed { (G : List TheEntry) → AreFed G self.old.feeds.items → AreFed G self.new.feeds.items }
        ensures pair { MatchResult result
            (HasCome self.old.feeds.items self.new.feeds.items)
            (λ _. self.new.feeds.items ≡ self.old.feeds.items) }
        ensures members { IfOk result (λ f. f.document.members ≡ own ∷ []) }
        ensures entries { IfOk result (λ f. f.document.entries ≡ []) }
        ensures follows { IfOk result ShowsWhatCame }
    {
        let (feed, follower) = new_ends(alloc, room, own)?;
        self.feeds.push(feed)?;
        Ok(follower)
    }

    /// Sends each follower what its ring has room for, as `Feed::send`, and drops feeds whose followers are gone.
    ///
    /// # Errors
    /// `AllocError` if allocation fails: what isn't sent yet is sent by the next call.
    pub fn send(&mut self, alloc: Global, document: &Document) -> Result<(), AllocError>
        ensures { (G : List TheEntry) → BeginsWith document.now.entries G
            → AreFed G self.old.feeds.items → AreFed document.now.entries self.new.feeds.items }
    {
        let_abandoned_go(&mut self.feeds);
        send_all(alloc, &mut self.feeds, document)
    }
}

/// What a follower shows is the beginning of the history of the document whose feeds these are, whenever the owner of both looks, as in
/// `follower_shows_a_beginning`: one of the feeds has the other end of the follower's ring.
pub fn each_follower_shows_a_beginning(feeds: &mut Feeds, at: usize, follower: &mut Follower)
    requires pair { HasEnd feeds.old.feeds.items at follower.old }
    requires follows { ShowsWhatCame follower.old }
    ensures { (G : List TheEntry) → AreFed G feeds.old.feeds.items → BeginsWith G follower.old.document.entries }
{
    follower_shows_a_beginning(&mut feeds.feeds[at], follower);
}

/// Sends each follower what its ring has room for.
///
/// # Errors
/// As `Feeds::send`.
fn send_all(alloc: Global, feeds: &mut [Feed], document: &Document) -> Result<(), AllocError>
    ensures { AreFed document.now.entries feeds.old → AreFed document.now.entries feeds.new }
{
    for feed in feeds.iter_mut() {
        feed.send(alloc, document)?;
    }
    Ok(())
}

/// Drops feeds whose followers are gone. If there are several, some may be left for the next call.
fn let_abandoned_go(feeds: &mut Vec<Feed>)
    ensures { (G : List TheEntry) → AreFed G feeds.old.items → AreFed G feeds.new.items }
{
    for index in 0..feeds.len() {
        let_go_at(feeds, index);
    }
}

/// Drops the feed at a position, if there is one and its follower is gone.
fn let_go_at(feeds: &mut Vec<Feed>, index: usize)
    ensures { (G : List TheEntry) → AreFed G feeds.old.items → AreFed G feeds.new.items }
{
    if index >= feeds.len() {
        return;
    }
    if !feeds[index].is_abandoned() {
        return;
    }
    feeds.swap_remove(index);
}
