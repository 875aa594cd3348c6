// The last clause of whole: a part not in use is zero.
ghost use Rattle.std.specs.Prelude.{◌≡◌, ◌*◌, ◌≤◌, List, ℕ, length, get_or, drop, leb};
ghost use Rattle.words.specs.Scan.{all_zero, all_within_as};
ghost use Rattle.frames.specs.Layout.{most_content};
ghost use Rattle.record.specs.Size.{held_contents, post_contents};
ghost use Rattle.record.specs.Count.{every_from};
ghost use Rattle.record.specs.inner.Head.{held_on, log_on, posts_on};
ghost use Rattle.record.specs.Whole.{contents_padded, free_places_zero, log_unused_zero, posts_unused_zero, turn_unused_zero};

use crate::head::{LogHead, PostsHead};
use crate::size;
use crate::turn::Turn;
use words::Word;

// Whatever stands from place n on is zero. Often n is 0: then the whole slice is looked at, whose length the compiler
// knows.
fn zero_from<W: Word>(s: &[W], n: u8) -> bool
    ensures { result ≡ all_within_as W.value 0 0 (drop n s.now) }
{
    if n == 0 {
        return words::all_zero(s);
    }
    let first = n as usize;
    if s.len() < first {
        return true;
    }
    words::all_zero(&s[first..])
}

// A content is looked at in pieces of 16 bytes, so that the compiler can test each at once.
const PIECE: usize = 16;

// Where the last begins.
const LAST_PIECE: usize = frames::MOST_CONTENT - PIECE;

// The bytes of a content from a place on: four pieces, which overlap where there are less than 64 bytes. Ruled
// out: a byte between two pieces left out; the byte before the place asked to be zero.
fn pieces_zero(s: &[u8; frames::MOST_CONTENT], first: usize) -> bool
    requires { first ≤ 48 }
    ensures { result ≡ all_zero (drop first s.now) }
{
    let second = (first + PIECE).min(LAST_PIECE);
    let third = (first + 2 * PIECE).min(LAST_PIECE);
    words::all_zero(&s[first..first + PIECE])
        & words::all_zero(&s[second..second + PIECE])
        & words::all_zero(&s[third..third + PIECE])
        & words::all_zero(&s[LAST_PIECE..])
}

// Every byte of a piece is at most its limit.
fn within_limits(s: &[u8], limits: &[u8]) -> bool
    requires { (length s.now ≡ 16) × (length limits.now ≡ 16) }
    ensures { result ≡ every_from
        (λ i. leb (get_or s.now i 0) (get_or limits.now i 0)) 0 16 }
{
    let mut good = true;
    for (x, limit) in s.iter().zip(limits) {
        good = good & (*x <= *limit);
    }
    good
}

// Where less than a piece is past a content's length, the last piece has limits: 255 for each byte of the content and
// 0 for each past it. They are 16 neighbours among these.
const LIMITS: [u8; 2 * PIECE] = [
    255, 255, 255, 255, 255, 255, 255, 255, 255, 255, 255, 255, 255, 255, 255, 255, 0, 0, 0, 0, 0,
    0, 0, 0, 0, 0, 0, 0, 0, 0, 0, 0,
];

// The bytes of a content past its length. Ruled out: the last byte not looked at; a byte of the content asked to be
// zero.
fn content_padded(s: &[u8; frames::MOST_CONTENT], n: u8) -> bool
    ensures { result ≡ all_zero (drop n s.now) }
{
    if n == 0 {
        return words::all_zero(s);
    }
    let first = n as usize;
    if first <= LAST_PIECE {
        return pieces_zero(s, first);
    }
    if frames::MOST_CONTENT <= first {
        return true;
    }
    let from = frames::MOST_CONTENT - first;
    within_limits(&s[LAST_PIECE..], &LIMITS[from..from + PIECE])
}

// The bytes past each content's length. By number, since a `zip` with the lengths takes three instructions more for
// each content. Ruled out: the last content not looked at; a content's own bytes asked to be zero.
fn contents_padded(lengths: &[u8], contents: &[u8]) -> bool
    requires { length contents.now ≡ most_content * length lengths.now }
    ensures { result ≡ contents_padded lengths.now contents.now }
{
    let (contents, _) = contents.as_chunks();
    for (i, content) in contents.iter().enumerate() {
        if !content_padded(content, lengths[i]) {
            return false;
        }
    }
    true
}

// With no way out of the loop, so that the compiler can test many at once.
fn free_places_zero(l: LogHead) -> bool
    ensures { (contents : List ℕ) → result ≡ free_places_zero (held_on l contents) }
{
    let mut good = true;
    for ((sender, service), length) in l.senders.iter().zip(&l.services).zip(&l.lengths) {
        good = good & ((*sender != 0) | ((*service == 0) & (*length == 0)));
    }
    good
}

pub fn log_unused_zero(l: LogHead, contents: &[u8; size::HELD_CONTENTS]) -> bool
    ensures { result ≡ log_unused_zero (log_on l contents.now) }
{
    let members = l.members;
    let lengths = l.lengths;
    zero_from(&members, l.count) & free_places_zero(l) & contents_padded(&lengths, contents)
}

pub fn posts_unused_zero(p: PostsHead, waiting: &[u8; size::POST_CONTENTS]) -> bool
    ensures { result ≡ posts_unused_zero (posts_on p waiting.now) }
{
    let services = p.services;
    let lengths = p.lengths;
    zero_from(&services, p.count)
        & zero_from(&lengths, p.count)
        & contents_padded(&lengths, waiting)
}

pub fn turn_unused_zero(t: Turn) -> bool
    ensures { result ≡ turn_unused_zero t }
{
    let token = t.token;
    zero_from(&token, t.size)
}
