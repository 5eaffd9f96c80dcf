//! What is promised of readers.

ghost use Rattle.semantics.specs.WorldHistory.{BeginsWith};
ghost use Rattle.followers.specs.Feeds.{HasEnd};

use crate::reader::Reader;
use crate::writer::Writer;
use followers::each_follower_shows_a_beginning;

/// What a reader shows is the beginning of its document's history, whenever the owner of both looks. The document is the one with a feed
/// that has the other end of the reader's ring.
pub fn reader_shows_a_beginning(writer: Writer, at: usize, reader: Reader)
    requires { HasEnd writer.feeds.feeds.items at reader.follower }
    ensures { BeginsWith writer.desk.replica.entries reader.follower.document.entries }
{
    let Writer { mut feeds, .. } = writer;
    let Reader { mut follower, .. } = reader;
    each_follower_shows_a_beginning(&mut feeds, at, &mut follower);
}
