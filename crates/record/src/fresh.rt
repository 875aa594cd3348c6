// A fresh record.
ghost use Rattle.std.specs.Prelude.{◌≡◌, ◌≤◌, length, replicate};
ghost use Rattle.record.specs.Size.{most_members, held_contents, post_contents};
ghost use Rattle.record.specs.inner.Head.{log_on, posts_on, record_showing};
ghost use Rattle.record.specs.Fresh.{members_placed, fresh_log, fresh_turn, fresh_posts, fresh};

use crate::head::{Head, LogHead, PostsHead};
use crate::size;
use crate::turn::Turn;
use frames::{MessageNumber, RingNumber, TokenNumber};

fn places_of(ids: &[u16]) -> [u16; size::MOST_MEMBERS]
    requires { length ids.now ≤ most_members }
    ensures { result ≡ members_placed ids.now }
{
    let mut members = [0u16; size::MOST_MEMBERS];
    members[..ids.len()].copy_from_slice(ids);
    members
}

fn fresh_log(ids: &[u16], ring: RingNumber) -> LogHead
    requires { length ids.now ≤ most_members }
    ensures { log_on result (replicate held_contents 0) ≡ fresh_log ids.now ring.0 }
{
    LogHead {
        ring,
        count: ids.len() as u8,
        members: places_of(ids),
        level: MessageNumber(0),
        safe: MessageNumber(0),
        delivered: MessageNumber(0),
        senders: [0u16; size::MOST_HELD],
        services: [0u16; size::MOST_HELD],
        lengths: [0u8; size::MOST_HELD],
    }
}

fn fresh_turn() -> Turn
    ensures { result ≡ fresh_turn }
{
    Turn {
        aru: MessageNumber(0),
        earlier: MessageNumber(0),
        number: TokenNumber(0),
        broadcast: 0,
        stall: 0,
        waited: 0,
        size: 0,
        token: [0u8; frames::LONGEST_TOKEN],
    }
}

fn fresh_posts() -> PostsHead
    ensures { posts_on result (replicate post_contents 0) ≡ fresh_posts }
{
    PostsHead {
        count: 0,
        services: [0u16; size::MOST_POSTS],
        lengths: [0u8; size::MOST_POSTS],
    }
}

// All marks and counts 0, nothing held or waiting, and no leave to resend; the contents are zero. Ruled out:
// the members in another order; a byte left over past them.
pub fn fresh_head(ids: &[u16], own: u16, ring: RingNumber) -> Head
    requires { length ids.now ≤ most_members }
    ensures { record_showing 0 result (replicate held_contents 0) (replicate post_contents 0) ≡ fresh ids.now own ring.0 }
{
    Head {
        own,
        log: fresh_log(ids, ring),
        turn: fresh_turn(),
        posts: fresh_posts(),
    }
}
