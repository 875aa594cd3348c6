// Is a record whole?
ghost use Rattle.std.specs.Prelude.{◌≡◌, cond, map, ◌≤◌, eqb, List, ℕ, length};
ghost use Rattle.frames.specs.Number.{most_number};
ghost use Rattle.frames.specs.Layout.{longest_token};
ghost use Rattle.record.specs.Size.{most_members, held_contents, post_contents};
ghost use Rattle.record.specs.inner.Head.{log_on, posts_on, record_on};
ghost use Rattle.record.specs.Whole.{senders_are_members, resend_passes, marks_in_order, arus_reached, held_to_level, next_not_held, log_whole, turn_whole, posts_whole, parts_whole, whole};

use crate::head::{Head, LogHead, PostsHead};
use crate::turn::Turn;
use crate::{Record, held, members, panel, places, range, ring, size, unused};
use frames::{MessageNumber, RingNumber};

// 0 in place of this id; any other stays.
fn struck(x: u16, id: u16) -> u16
    ensures { result ≡ cond (eqb x id) 0 x }
{
    if x == id { 0 } else { x }
}

// The same in every place. With no way out of the loop, so that the compiler can do many at once.
fn strike(left: &mut [u16], id: u16)
    ensures { left.new ≡ map (λ x. cond (eqb x id) 0 x) left.old }
{
    for x in left.iter_mut() {
        *x = struck(*x, id);
    }
}

// Each place is free, or its sender is a member: with every member struck out, nothing is left. Ruled out: the
// last place not looked at; a free place taken for a stranger's. That there are 8 at the most is said again, so that
// the compiler makes no code for more.
fn senders_are_members(ids: &[u16], senders: [u16; size::MOST_HELD]) -> bool
    requires { length ids.now ≤ most_members }
    ensures { result ≡ senders_are_members ids.now senders }
{
    let mut left = senders;
    for id in &ids[..ids.len().min(size::MOST_MEMBERS)] {
        strike(&mut left, *id);
    }
    words::all_zero(&left)
}

fn resend_passes(ring: RingNumber, ids: &[u16], t: Turn) -> bool
    requires { t.size ≤ longest_token }
    ensures { result ≡ resend_passes ring.0 ids.now t }
{
    if t.size == 0 {
        return true;
    }
    let token = t.token;
    ring::token_passes(ring, ids, &token[0..t.size as usize])
}

fn marks_in_order(l: LogHead) -> bool
    ensures { (contents : List ℕ) → result ≡ marks_in_order (log_on l contents) }
{
    (l.safe.0 <= l.delivered.0) & (l.delivered.0 <= l.level.0)
}

fn arus_reached(t: Turn, level: MessageNumber) -> bool
    ensures { result ≡ arus_reached t level.0 }
{
    (t.aru.0 <= level.0) & (t.earlier.0 <= level.0)
}

fn held_to_level(l: LogHead) -> bool
    ensures { (contents : List ℕ) → result ≡ held_to_level (log_on l contents) }
{
    let many = l.level.0.saturating_sub(l.safe.0);
    if (size::MOST_HELD as u32) < many {
        return false;
    }
    places::every_place(
        l.safe,
        &l.senders,
        |before, in_use| (many <= before) | in_use,
    )
}

fn next_not_held(l: LogHead) -> bool
    requires { (l.safe.0 ≤ most_number) × (l.level.0 ≤ most_number) }
    ensures { (contents : List ℕ) → result ≡ next_not_held (log_on l contents) }
{
    !held::is_held(l.safe, &l.senders, MessageNumber(l.level.0 + 1))
}

// The clauses of the log: its ranges first, which the others need. Ruled out: a gap below the level; a stranger's
// message held.
fn log_whole(own: u16, l: LogHead, contents: &[u8; size::HELD_CONTENTS]) -> bool
    ensures { result ≡ log_whole own (log_on l contents.now) }
{
    if !range::log_in_range(l) {
        return false;
    }
    let members = l.members;
    let senders = l.senders;
    let n = l.count as usize;
    let ids = &members[0..n];
    senders_are_members(ids, senders)
        & members::foundable_by(ids, own, l.ring)
        & marks_in_order(l)
        & held_to_level(l)
        & next_not_held(l)
        & unused::log_unused_zero(l, contents)
}

// The clauses of the turn. Ruled out: a token of another ring; an aru above the level.
fn turn_whole(l: LogHead, t: Turn) -> bool
    requires { l.count ≤ most_members }
    ensures { (contents : List ℕ) → result ≡ turn_whole (log_on l contents) t }
{
    if !range::turn_in_range(t) {
        return false;
    }
    let members = l.members;
    let n = l.count as usize;
    resend_passes(l.ring, &members[0..n], t)
        & arus_reached(t, l.level)
        & unused::turn_unused_zero(t)
}

// The clauses of the posts.
fn posts_whole(p: PostsHead, waiting: &[u8; size::POST_CONTENTS]) -> bool
    ensures { result ≡ posts_whole (posts_on p waiting.now) }
{
    if !range::posts_in_range(p) {
        return false;
    }
    unused::posts_unused_zero(p, waiting)
}

// All clauses but the panel's, of any values of the head and any contents: the posts, then the log, which the turn
// needs. Ruled out: a record with a gap below its level; one whose token is another ring's.
pub fn is_whole_on(
    h: Head,
    contents: &[u8; size::HELD_CONTENTS],
    waiting: &[u8; size::POST_CONTENTS],
) -> bool
    ensures { result ≡ parts_whole (record_on h contents.now waiting.now) }
{
    if !posts_whole(h.posts, waiting) {
        return false;
    }
    if !log_whole(h.own, h.log, contents) {
        return false;
    }
    turn_whole(h.log, h.turn)
}

// The same of a record by value.
pub fn is_whole(r: Record) -> bool
    ensures { result ≡ whole r }
{
    let contents = r.log.held.contents;
    let waiting = r.posts.contents;
    let h = Head::from(r);
    if r.panel != panel::undelivered(h.log) {
        return false;
    }
    is_whole_on(h, &contents, &waiting)
}
