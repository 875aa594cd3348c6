// A record lent as bytes: what is asked of it and done to it where it stands. A head goes by value, contents stay.
ghost use Rattle.std.specs.Prelude.{◌≡◌, ◌+◌, ◌*◌, ◌≤◌, ◌<◌, length, take, drop};
ghost use Rattle.std.proofs.lemmas.List.Edits.{sets};
ghost use Rattle.frames.specs.Number.{most_number};
ghost use Rattle.frames.specs.Layout.{most_content};
ghost use Rattle.record.specs.Size.{most_posts};
ghost use Rattle.record.specs.Held.{place_of, stored, let_go};
ghost use Rattle.record.specs.Posts.{taken};
ghost use Rattle.record.specs.Layout.{record_size, log_at, turn_at, posts_at, post_contents_at};
ghost use Rattle.record.specs.inner.Head.{log_on, posts_on, contents_in, waiting_in, record_head};
ghost use Rattle.record.specs.Lent.{lent, bytes_whole};

use crate::head::{Head, LogHead, PostsHead};
use crate::{bytes, fresh, held, layout, panel, posts, size, whole};
use frames::{Message, MessageNumber, RingNumber};
use words::Word;

// The head of the record, for whatever comes next; bytes of another length have the head of nobody's record.
// Ruled out: two marks swapped; the head of a record at the front of a longer slice.
pub fn head_in(s: &[u8]) -> Head
    ensures { result ≡ record_head (lent s.now) }
{
    if s.len() != layout::RECORD_SIZE {
        let nobody = [0u16; size::MOST_MEMBERS];
        return fresh::fresh_head(&nobody[0..0], 0, RingNumber(0));
    }
    bytes::get_head(s)
}

// Is the record whole, whose head this is? Its contents are looked at where they stand. Ruled out: a longer
// slice with a whole record at its front; a content past its length not looked at.
pub fn is_whole_at(h: Head, s: &[u8]) -> bool
    requires { h ≡ record_head (lent s.now) }
    ensures { result ≡ bytes_whole s.now }
{
    if s.len() != layout::RECORD_SIZE {
        return false;
    }
    if u8::get(s, layout::PANEL_AT) != panel::undelivered(h.log) {
        return false;
    }
    whole::is_whole_on(h, contents_in(s), waiting_in(s))
}

// The same of bytes alone. Ruled out: yes to every record of the right length; yes to a longer slice.
pub fn is_whole_in(s: &[u8]) -> bool
    ensures { result ≡ bytes_whole s.now }
{
    is_whole_at(head_in(s), s)
}

// The contents of the held messages. Ruled out: the contents of the posts; one byte too few.
pub fn contents_in(s: &[u8]) -> &[u8; size::HELD_CONTENTS]
    requires { record_size ≤ length s.now }
    ensures { result.now ≡ contents_in s.now log_at }
{
    s[layout::CONTENTS_AT..layout::CONTENTS_END]
        .as_array()
        .unwrap()
}

// The contents of the waiting posts. Ruled out: the contents of the held messages; one byte too few.
fn waiting_in(s: &[u8]) -> &[u8; size::POST_CONTENTS]
    requires { record_size ≤ length s.now }
    ensures { result.now ≡ waiting_in s.now posts_at }
{
    s[layout::WAITING_AT..layout::RECORD_SIZE]
        .as_array()
        .unwrap()
}

// What is done to the log leaves everything behind it, and what is done to the posts everything before their
// contents.

// A message is held under a number. Ruled out: another number's message written over; a post's content changed.
pub fn store_in(l: LogHead, s: &mut [u8], m: Message, content: &[u8]) -> LogHead
    requires { (length s.old ≡ record_size) × (length content.now ≤ most_content) }
    ensures { (log_on result (contents_in s.new log_at)
        ≡ stored (log_on l (contents_in s.old log_at)) m.number.0
        (record { sender = m.sender; service = m.service; content = content.now }))
        × (drop turn_at s.new ≡ drop turn_at s.old) }
{
    let contents = &mut s[layout::CONTENTS_AT..layout::CONTENTS_END];
    held::store(l, contents, m, content)
}

// The content of a waiting post, of this size, becomes that of a held message. Ruled out: another post's; the
// post's own changed.
pub fn hold_content_in(s: &mut [u8], post: usize, size: usize, n: MessageNumber)
    requires { (length s.old ≡ record_size) × (post < most_posts) × (size ≤ most_content) }
    ensures { (contents_in s.new log_at
        ≡ sets (contents_in s.old log_at) (most_content * place_of n.0)
        (take size (drop (most_content * post) (waiting_in s.old posts_at))))
        × (drop turn_at s.new ≡ drop turn_at s.old) }
{
    let mut content = [0u8; frames::MOST_CONTENT];
    let from = layout::WAITING_AT + frames::MOST_CONTENT * post;
    words::get_slice(s, from, size, &mut content);
    let place = held::place_of(n);
    let contents = &mut s[layout::CONTENTS_AT..layout::CONTENTS_END];
    words::put_slice(contents, frames::MOST_CONTENT * place, &content[0..size]);
}

// Everything up to a new safe mark is let go. Ruled out: the mark's own message kept; one above it let go.
pub fn let_go_in(l: LogHead, s: &mut [u8], safe: MessageNumber) -> LogHead
    requires { (length s.old ≡ record_size) × (l.safe.0 ≤ safe.0) × (safe.0 ≤ most_number) }
    ensures { (log_on result (contents_in s.new log_at) ≡ let_go (log_on l (contents_in s.old log_at)) safe.0)
        × (drop turn_at s.new ≡ drop turn_at s.old) }
{
    let contents = &mut s[layout::CONTENTS_AT..layout::CONTENTS_END];
    held::let_go(l, contents, safe)
}

// The n oldest posts wait no longer. Ruled out: the newest taken; a held message's content changed.
pub fn take_oldest_in(p: PostsHead, s: &mut [u8], n: u8) -> PostsHead
    requires { (length s.old ≡ record_size) × (n ≤ p.count) × (p.count ≤ most_posts) }
    ensures { (posts_on result (waiting_in s.new posts_at) ≡ taken (posts_on p (waiting_in s.old posts_at)) n)
        × (take (posts_at + post_contents_at) s.new ≡ take (posts_at + post_contents_at) s.old) }
{
    let waiting = &mut s[layout::WAITING_AT..layout::RECORD_SIZE];
    posts::take_oldest(p, waiting, n)
}
