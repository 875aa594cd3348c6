// The first clause of whole: fields in range. The lengths of arrays are the types' own.
ghost use Rattle.std.specs.Prelude.{◌≡◌, ◌≤◌, List, ℕ, length};
ghost use Rattle.frames.specs.Number.{most_number};
ghost use Rattle.record.specs.Size.{held_contents, post_contents};
ghost use Rattle.record.specs.inner.Head.{held_on, log_on, posts_on};
ghost use Rattle.record.specs.Whole.{held_in_range, numbers_in_range, log_in_range, turn_in_range, posts_in_range};

use crate::head::{LogHead, PostsHead};
use crate::size;
use crate::turn::Turn;

fn held_in_range(l: LogHead) -> bool
    ensures { (contents : List ℕ) → length contents ≡ held_contents → result ≡ held_in_range (held_on l contents) }
{
    let services = l.services;
    let lengths = l.lengths;
    words::all_within(&services, 0, frames::MOST_SERVICE)
        & words::all_within(&lengths, 0, frames::MOST_CONTENT as u8)
}

// A safe mark with 32 numbers above it needs no look at the places.
fn numbers_in_range(l: LogHead) -> bool
    requires { l.safe.0 ≤ most_number }
    ensures { (contents : List ℕ) → result ≡ numbers_in_range (log_on l contents) }
{
    let senders = l.senders;
    let safe = l.safe.0;
    if safe <= frames::MOST_NUMBER - size::MOST_HELD as u32 {
        return true;
    }
    for n in safe + 1..safe + 1 + size::MOST_HELD as u32 {
        if (frames::MOST_NUMBER < n) & (senders[n as usize % size::MOST_HELD] != 0) {
            return false;
        }
    }
    true
}

pub fn log_in_range(l: LogHead) -> bool
    ensures { (contents : List ℕ) → length contents ≡ held_contents → result ≡ log_in_range (log_on l contents) }
{
    let counted = l.count as usize <= size::MOST_MEMBERS;
    let level = l.level.0 <= frames::MOST_NUMBER;
    let safe = l.safe.0 <= frames::MOST_NUMBER;
    let delivered = l.delivered.0 <= frames::MOST_NUMBER;
    if !safe {
        return false;
    }
    counted & level & delivered & held_in_range(l) & numbers_in_range(l)
}

pub fn turn_in_range(t: Turn) -> bool
    ensures { result ≡ turn_in_range t }
{
    (t.aru.0 <= frames::MOST_NUMBER)
        & (t.earlier.0 <= frames::MOST_NUMBER)
        & (t.number.0 <= frames::MOST_NUMBER)
        & (t.broadcast as usize <= size::MOST_BROADCASTS)
        & (t.waited as usize <= size::MOST_POSTS)
        & (t.size as usize <= frames::LONGEST_TOKEN)
}

pub fn posts_in_range(p: PostsHead) -> bool
    ensures { (waiting : List ℕ) → length waiting ≡ post_contents → result ≡ posts_in_range (posts_on p waiting) }
{
    let services = p.services;
    let lengths = p.lengths;
    (p.count as usize <= size::MOST_POSTS)
        & words::all_within(&services, 0, frames::MOST_SERVICE)
        & words::all_within(&lengths, 0, frames::MOST_CONTENT as u8)
}
