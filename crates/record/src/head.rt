// Heads: a log, the waiting posts and a record without their contents. The contents stay where they are lent,
// so a head is small and goes by value where the whole would be copied. A count stands last in it, behind the
// arrays: there is no hole between fields, and a copy moves them by whole words.
ghost use Rattle.std.specs.Prelude.{◌≡◌};
ghost use Rattle.record.specs.inner.Head.{record_showing, head_of, posts_head, record_head};

use crate::log::{Held, Log};
use crate::posts::Posts;
use crate::turn::Turn;
use crate::{Record, size};
use frames::{MessageNumber, RingNumber};

#[derive(Clone, Copy)]
pub struct LogHead {
    pub ring: RingNumber,
    pub members: [u16; size::MOST_MEMBERS],
    pub level: MessageNumber,
    pub safe: MessageNumber,
    pub delivered: MessageNumber,
    pub senders: [u16; size::MOST_HELD],
    pub services: [u16; size::MOST_HELD],
    pub lengths: [u8; size::MOST_HELD],
    pub count: u8,
}

#[derive(Clone, Copy)]
pub struct PostsHead {
    pub services: [u16; size::MOST_POSTS],
    pub lengths: [u8; size::MOST_POSTS],
    pub count: u8,
}

// The own id stands behind the turn, which ends at an odd byte: so there is no hole before the posts' arrays.
#[derive(Clone, Copy)]
pub struct Head {
    pub log: LogHead,
    pub turn: Turn,
    pub own: u16,
    pub posts: PostsHead,
}

// A log without its contents.
impl From<Log> for LogHead {
    ghost from_gives = { λ l h. h ≡ head_of l };

    fn from(l: Log) -> LogHead {
        let Log {
            ring,
            count,
            members,
            level,
            safe,
            delivered,
            held,
        } = l;
        let Held {
            senders,
            services,
            lengths,
            ..
        } = held;
        LogHead {
            ring,
            members,
            level,
            safe,
            delivered,
            senders,
            services,
            lengths,
            count,
        }
    }
}

// The waiting posts without their contents.
impl From<Posts> for PostsHead {
    ghost from_gives = { λ p h. h ≡ posts_head p };

    fn from(p: Posts) -> PostsHead {
        let Posts {
            count,
            services,
            lengths,
            ..
        } = p;
        PostsHead {
            services,
            lengths,
            count,
        }
    }
}

// A record without its contents.
impl From<Record> for Head {
    ghost from_gives = { λ r h. h ≡ record_head r };

    fn from(r: Record) -> Head {
        let Record {
            own,
            log,
            turn,
            posts,
            ..
        } = r;
        Head {
            log: LogHead::from(log),
            turn,
            own,
            posts: PostsHead::from(posts),
        }
    }
}

// A head, the panel's count and the contents.
pub fn record_showing(
    panel: u8,
    h: Head,
    contents: [u8; size::HELD_CONTENTS],
    waiting: [u8; size::POST_CONTENTS],
) -> Record
    ensures { result ≡ record_showing panel h contents waiting }
{
    let LogHead {
        ring,
        members,
        level,
        safe,
        delivered,
        senders,
        services,
        lengths,
        count,
    } = h.log;
    let held = Held {
        senders,
        services,
        lengths,
        contents,
    };
    let log = Log {
        ring,
        count,
        members,
        level,
        safe,
        delivered,
        held,
    };
    let PostsHead {
        services,
        lengths,
        count,
    } = h.posts;
    let posts = Posts {
        count,
        services,
        lengths,
        contents: waiting,
    };
    let turn = h.turn;
    Record {
        own: h.own,
        panel,
        log,
        turn,
        posts,
    }
}
