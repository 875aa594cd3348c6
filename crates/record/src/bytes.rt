// The record and its bytes: one layout and one length. A head is read and stored with the contents left where
// they stand.
ghost use Rattle.std.specs.Prelude.{◌≡◌, ◌++◌, ◌<◌, ◌≤◌, length, drop};
ghost use Rattle.frames.specs.Layout.{most_content};
ghost use Rattle.record.specs.Size.{most_members, most_posts};
ghost use Rattle.record.specs.Fresh.{fresh};
ghost use Rattle.record.specs.Posts.{queued};
ghost use Rattle.record.specs.Layout.{record_size, log_at, posts_at};
ghost use Rattle.record.specs.Bytes.{record_of, record_bytes};
ghost use Rattle.record.specs.Parts.{with_posts};
ghost use Rattle.record.specs.inner.Head.{record_showing, record_in, record_head, contents_in, waiting_in};

use crate::head::Head;
use crate::turn::Turn;
use crate::{Record, fresh, head, layout, log_bytes, panel, posts, posts_bytes, size, turn_bytes};
use frames::RingNumber;
use words::Word;

// The head of the record in the first RECORD_SIZE bytes. Ruled out: two marks swapped; a field one byte off.
pub fn get_head(s: &[u8]) -> Head
    requires { record_size ≤ length s.now }
    ensures { result ≡ record_head (record_of s.now) }
{
    Head {
        own: u16::get(s, layout::OWN_AT),
        log: log_bytes::get_log_head(&s[layout::LOG_AT..]),
        turn: turn_bytes::get_turn(&s[layout::TURN_AT..]),
        posts: posts_bytes::get_posts_head(&s[layout::POSTS_AT..]),
    }
}

// A head and the panel's count, to the first RECORD_SIZE bytes: the contents stay.
fn put_showing(out: &mut [u8], panel: u8, h: Head)
    requires { record_size ≤ length out.old }
    ensures { out.new
        ≡ record_bytes (record_showing panel h (contents_in out.old log_at) (waiting_in out.old posts_at))
        ++ drop record_size out.old }
{
    u16::put(out, layout::OWN_AT, h.own);
    u8::put(out, layout::PANEL_AT, panel);
    log_bytes::put_log_head(out, layout::LOG_AT, h.log);
    turn_bytes::put_turn(out, layout::TURN_AT, h.turn);
    posts_bytes::put_posts_head(out, layout::POSTS_AT, h.posts);
}

// The same with the count as it has to be. Ruled out: a content or a byte past them changed; the count left as it was.
pub fn put_head(out: &mut [u8], h: Head)
    requires { record_size ≤ length out.old }
    ensures { out.new ≡ record_bytes (record_in h out.old) ++ drop record_size out.old }
{
    put_showing(out, panel::undelivered(h.log), h);
}

// The record in the first RECORD_SIZE bytes.
pub fn decode(s: &[u8]) -> Record
    requires { record_size ≤ length s.now }
    ensures { result ≡ record_of s.now }
{
    let mut contents = [0u8; size::HELD_CONTENTS];
    words::get_slice(s, layout::CONTENTS_AT, size::HELD_CONTENTS, &mut contents);
    let mut waiting = [0u8; size::POST_CONTENTS];
    words::get_slice(s, layout::WAITING_AT, size::POST_CONTENTS, &mut waiting);
    let panel = u8::get(s, layout::PANEL_AT);
    head::record_showing(panel, get_head(s), contents, waiting)
}

// To the first RECORD_SIZE bytes. Ruled out: a byte past them changed; a field left out.
pub fn encode(r: Record, out: &mut [u8])
    requires { record_size ≤ length out.old }
    ensures { out.new ≡ record_bytes r ++ drop record_size out.old }
{
    let contents = r.log.held.contents;
    let waiting = r.posts.contents;
    words::put_slice(out, layout::CONTENTS_AT, &contents);
    words::put_slice(out, layout::WAITING_AT, &waiting);
    put_showing(out, r.panel, Head::from(r));
}

// A fresh record, to the first RECORD_SIZE bytes. Ruled out: a content that stood there before; a byte past
// them changed.
pub fn put_fresh(out: &mut [u8], ids: &[u16], own: u16, ring: RingNumber)
    requires { (record_size ≤ length out.old) × (length ids.now ≤ most_members) }
    ensures { out.new
        ≡ record_bytes (fresh ids.now own ring.0) ++ drop record_size out.old }
{
    words::put_slice(out, layout::CONTENTS_AT, &[0u8; size::HELD_CONTENTS]);
    words::put_slice(out, layout::WAITING_AT, &[0u8; size::POST_CONTENTS]);
    put_showing(out, 0, fresh::fresh_head(ids, own, ring));
}

// What a station keeps from one visit to the next, in the record's bytes.
pub fn turn_in(s: &[u8]) -> Turn
    requires { record_size ≤ length s.now }
    ensures { result ≡ (record_of s.now).turn }
{
    turn_bytes::get_turn(&s[layout::TURN_AT..])
}

// How many posts wait, in the record's bytes.
pub fn post_count(s: &[u8]) -> u8
    requires { record_size ≤ length s.now }
    ensures { result ≡ (record_of s.now).posts.count }
{
    u8::get(s, layout::POSTS_AT + layout::POST_COUNT_AT)
}

// One post more, in the record's bytes: only those of the posts change. Ruled out: a mark changed; the
// content of another post.
pub fn put_post(s: &mut [u8], service: u16, content: &[u8])
    requires { (length s.old ≡ record_size)
        × ((record_of s.old).posts.count < most_posts)
        × (length content.now ≤ most_content) }
    ensures { s.new
        ≡ record_bytes (with_posts (record_of s.old) (queued (record_of s.old).posts service content.now)) }
{
    let before = posts_bytes::get_posts_head(&s[layout::POSTS_AT..]);
    let after = posts::queue_on(before, &mut s[layout::WAITING_AT..], service, content);
    posts_bytes::put_posts_head(s, layout::POSTS_AT, after);
}
