//! Where a seat keeps the list of replies to a job between two attempts.
ghost use Rattle.std.specs.Prelude.{◌≡◌, []};

use seq_model::Reply;
use std::alloc::Global;
use std::marker::Model;
use std::mem;

/// The list in which the replies to a job are stored while it is attempted. Contracts see nothing of it.
#[derive(Drop)]
pub(crate) struct ReplyRoom<V> {
    replies: Vec<Reply<V>>,
}

impl<V> Model for ReplyRoom<V> {
    ghost use Rattle.std.specs.Prelude.{⊤};

    ghost Value = { ⊤ };

    ghost view = { λ _. tt };
}

impl<V: Drop> ReplyRoom<V> {
    /// None yet. It takes no memory.
    pub(crate) fn new(alloc: Global) -> ReplyRoom<V> {
        ReplyRoom {
            replies: Vec::new(alloc),
        }
    }

    /// The list, with the room that it had when it was kept, and nothing in it. None is there until then.
    pub(crate) fn take(&mut self, alloc: Global) -> Vec<Reply<V>>
        ensures { result.items ≡ [] }
    {
        let mut replies = mem::replace(&mut self.replies, Vec::new(alloc));
        replies.clear();
        replies
    }

    /// Keeps a list, and clears it.
    pub(crate) fn keep(&mut self, replies: Vec<Reply<V>>) {
        self.replies = replies;
        self.replies.clear();
    }
}
