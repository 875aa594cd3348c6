// A token is accepted: the visit whole. Steps 1 to 8 read the record and leave it alone; only then are new
// messages' contents moved, deliveries handed out and messages let go.
ghost use Rattle.std.specs.Prelude.{◌≡◌, true, ◌++◌, ◌≤◌, length, drop};
ghost use Rattle.std.proofs.lemmas.List.Edits.{sets};
ghost use Rattle.frames.specs.Number.{most_number};
ghost use Rattle.frames.specs.Header.{header_follows};
ghost use Rattle.frames.specs.Token.{token_bytes};
ghost use Rattle.record.specs.Bytes.{record_bytes};
ghost use Rattle.record.specs.inner.Head.{log_on, record_in, contents_in};
ghost use Rattle.record.specs.Held.{let_go};
ghost use Rattle.record.specs.Layout.{record_size, log_at, turn_at};
ghost use Rattle.record.specs.Parts.{with_parts};
ghost use Rattle.record.specs.Posts.{taken};
ghost use Rattle.record.specs.Size.{most_posts};
ghost use Rattle.record.proofs.WholeFacts.{LogGood};
ghost use Rattle.visit.specs.Output.{followed_by, most_frames, most_deliveries};
ghost use Rattle.visit.specs.Deliver.{ring_header, joined, handed_out, delivered};
ghost use Rattle.visit.specs.Visit.{log_now, token', rec', written, handed, visited_of};
ghost use Rattle.visit.specs.Acceptable.{Acceptable, visit};
ghost use Rattle.visit.specs.inner.Steps.{new_frames, sent_of, forwarded_of};

use crate::broadcasting::Sent;
use crate::forwarding::Forwarded;
use crate::held_log::HeldLog;
use crate::sent_visit::SentVisit;
use crate::token_visit::TokenVisit;
use crate::{new_messages, remembered};
use frames::{MessageNumber, Token};
use record::{Head, LogHead};

// How many bytes a visit writes for the cable and delivers, and the id in the notice 'deaf', or 0: a number, since the
// answer has it so, for theorem OutcomeFixes of the crate above (no two answers have the same numbers, as `None` and
// `Some(0)` would).
#[derive(Clone, Copy, Debug, PartialEq, Eq)]
pub struct Visited {
    pub frames: u16,
    pub deliveries: u16,
    pub deaf: u16,
}

// The new messages' contents move, and their frames and the token's are written out behind the repeats'. How many
// bytes are written in all. The six stay apart: a struct that holds the bytes by `&mut`, with a fact on them, has no
// generated proof.
fn send_new(h: &Head, s: &mut [u8], t: &Token, b: &Sent, f: &Forwarded, out: &mut [u8]) -> usize
    requires { Acceptable (visit (record_in h.now s.old) t.now)
        × (b.now ≡ sent_of (visit (record_in h.now s.old) t.now))
        × (f.now ≡ forwarded_of (visit (record_in h.now s.old) t.now))
        × (length s.old ≡ record_size)
        × (most_frames ≤ length out.old) }
    ensures { (result ≡ length (joined (written (visit (record_in h.now s.old) t.now))))
        × (log_on b.now.log (contents_in s.new log_at) ≡ log_now (visit (record_in h.now s.old) t.now))
        × (drop turn_at s.new ≡ drop turn_at s.old)
        × (out.new ≡ sets out.old b.now.size
        (joined (new_frames (visit (record_in h.now s.old) t.now))
        ++ token_bytes (token' (visit (record_in h.now s.old) t.now)))) }
{
    new_messages::place_new(s, &h.posts, t.highest, b.added);
    let log = HeldLog::new(&b.log, record::contents_in(s));
    let at = log.put_run(t.highest, b.added, out, b.size);
    remembered::put_remembered(f.turn, &mut out[at..]);
    at + f.turn.size as usize
}

// 9. Deliver, then let go; the posts that were sent wait no longer; the record is stored. The head has the
// log and the turn that are left, and the posts that waited. How many bytes are delivered.
fn finish(h: Head, s: &mut [u8], safe: MessageNumber, added: u8, deliveries: &mut [u8]) -> usize
    requires { (length s.old ≡ record_size)
        × LogGood (record_in h s.old).log
        × (header_follows (ring_header (record_in h s.old).log) ≡ true)
        × (h.log.safe.0 ≤ safe.0)
        × (safe.0 ≤ most_number)
        × (added ≤ h.posts.count)
        × (h.posts.count ≤ most_posts)
        × (most_deliveries ≤ length deliveries.old) }
    ensures { (result ≡ length (handed_out (record_in h s.old).log safe.0))
        × (s.new ≡ record_bytes (with_parts (record_in h s.old)
        (let_go (delivered (record_in h s.old).log safe.0) safe.0)
        h.turn
        (taken (record_in h s.old).posts added)))
        × (deliveries.new ≡ followed_by
        (handed_out (record_in h s.old).log safe.0)
        deliveries.old) }
{
    let handed = HeldLog::new(&h.log, record::contents_in(s)).hand_out(safe, deliveries);
    let delivered = MessageNumber(h.log.delivered.0 + handed.count);
    let marked = LogHead { delivered, ..h.log };
    let log = record::let_go_in(marked, s, safe);
    let posts = record::take_oldest_in(h.posts, s, added);
    record::put_head(s, Head { log, posts, ..h });
    handed.size
}

// A token that passes 2 and 10 to 18, at a record in these bytes with this head. Ruled out: a good first visit
// and mere forwarding later; a delivery that is let go before it is handed out.
pub fn accept(
    h: &Head,
    s: &mut [u8],
    t: &Token,
    frames: &mut [u8],
    deliveries: &mut [u8],
) -> Visited
    requires { Acceptable (visit (record_in h.now s.old) t.now)
        × (length s.old ≡ record_size)
        × (most_frames ≤ length frames.old)
        × (most_deliveries ≤ length deliveries.old) }
    ensures { (result ≡ visited_of (visit (record_in h.now s.old) t.now))
        × (s.new ≡ record_bytes (rec' (visit (record_in h.now s.old) t.now)))
        × (frames.new ≡ followed_by
        (joined (written (visit (record_in h.now s.old) t.now)))
        frames.old)
        × (deliveries.new ≡ followed_by
        (handed (visit (record_in h.now s.old) t.now))
        deliveries.old) }
{
    let visit = TokenVisit {
        head: h,
        bytes: s,
        token: t,
    };
    let b = visit.broadcast(frames);
    let f = SentVisit { visit, sent: &b }.forward();
    let written = send_new(h, s, t, &b, &f, frames);
    let left = Head {
        log: b.log,
        turn: f.turn,
        ..*h
    };
    let handed = finish(left, s, f.safe, b.added as u8, deliveries);
    Visited {
        frames: written as u16,
        deliveries: handed as u16,
        deaf: f.deaf,
    }
}
