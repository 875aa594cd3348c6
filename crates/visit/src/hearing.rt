// A message arrives: it is kept, or was had, or is too far ahead. The content is the part of the frame
// that the reader's `content` gives; it goes on as it is to where it is held and to where it is delivered.
ghost use Rattle.std.specs.Prelude.{◌≡◌, List, ℕ, ◌+◌, ◌≤◌, length, drop};
ghost use Rattle.frames.specs.Number.{most_number};
ghost use Rattle.frames.specs.Layout.{most_content};
ghost use Rattle.record.specs.Bytes.{record_bytes};
ghost use Rattle.record.specs.inner.Head.{log_on, record_in, contents_in};
ghost use Rattle.record.specs.Held.{stored};
ghost use Rattle.record.specs.Layout.{record_size, log_at, turn_at};
ghost use Rattle.visit.specs.Output.{followed_by, most_deliveries};
ghost use Rattle.visit.specs.Level.{raised};
ghost use Rattle.visit.specs.Message.{is_had, is_ahead, heard_as, entry_in, resend_ended, rec_heard, handed_heard, heard_of};
ghost use Rattle.visit.specs.Acceptable.{Hearable};
ghost use Rattle.visit.specs.inner.Steps.{head_delivered, head_heard};
ghost use Rattle.visit.specs.declared.hearing.Hearing.TheVariants.{WasHad, IsAhead, IsKept};

use crate::delivering::Handed;
use crate::held_log::HeldLog;
use crate::level;
use frames::{Message, MessageNumber};
use record::{Head, LogHead, Turn};

// What became of a message.
#[derive(Clone, Copy, Debug, PartialEq, Eq)]
pub enum Hearing {
    WasHad,
    IsAhead,
    IsKept,
}

// And how many bytes are delivered.
#[derive(Clone, Copy, Debug, PartialEq, Eq)]
pub struct Heard {
    pub how: Hearing,
    pub size: u16,
}

// At or below the safe mark, or already held?
fn is_had(l: &LogHead, n: MessageNumber) -> bool
    requires { l.now.safe.0 ≤ most_number }
    ensures { (contents : List ℕ) → result ≡ is_had (log_on l.now contents) n.0 }
{
    (n.0 <= l.safe.0) | record::is_held(l.safe, &l.senders, n)
}

// Above safe mark + 32?
fn is_ahead(l: &LogHead, n: MessageNumber) -> bool
    requires { l.now.safe.0 ≤ most_number }
    ensures { (contents : List ℕ) → result ≡ is_ahead (log_on l.now contents) n.0 }
{
    l.safe.0 + (record::MOST_HELD as u32) < n.0
}

// What becomes of a message with this number.
fn hearing_of(l: &LogHead, n: MessageNumber) -> Hearing
    requires { l.now.safe.0 ≤ most_number }
    ensures { (contents : List ℕ) → result ≡ heard_as (log_on l.now contents) n.0 WasHad IsAhead IsKept }
{
    if is_had(l, n) {
        return Hearing::WasHad;
    }
    if is_ahead(l, n) {
        return Hearing::IsAhead;
    }
    Hearing::IsKept
}

// The message is held, and the level rises.
fn keep(l: LogHead, s: &mut [u8], m: Message, content: &[u8]) -> LogHead
    requires { (l.safe.0 ≤ most_number)
        × (l.level.0 ≤ most_number)
        × (length s.old ≡ record_size)
        × (length content.now ≤ most_content) }
    ensures { (log_on result (contents_in s.new log_at)
        ≡ raised (stored (log_on l (contents_in s.old log_at)) m.number.0 (entry_in m content.now)))
        × (drop turn_at s.new ≡ drop turn_at s.old) }
{
    let stored = record::store_in(l, s, m, content);
    let level = level::level_of(stored.level, stored.safe, &stored.senders);
    LogHead { level, ..stored }
}

// Without the leave to resend.
fn resend_ended(t: Turn) -> Turn
    ensures { result ≡ resend_ended t }
{
    Turn {
        size: 0,
        token: [0u8; frames::LONGEST_TOKEN],
        ..t
    }
}

// The record is stored once this log has delivered; how many bytes it delivered.
fn put_heard(h: &Head, s: &mut [u8], l: &LogHead, how: Hearing, handed: Handed) -> Heard
    requires { (handed.size ≤ most_deliveries)
        × (l.now.delivered.0 + handed.count ≤ most_number)
        × (length s.old ≡ record_size) }
    ensures { (result ≡ record { how = how; size = handed.size })
        × (s.new ≡ record_bytes (record_in (head_heard h.now (head_delivered l.now handed.count)) s.old)) }
{
    let delivered = MessageNumber(l.delivered.0 + handed.count);
    let log = LogHead { delivered, ..*l };
    let turn = resend_ended(h.turn);
    record::put_head(s, Head { log, turn, ..*h });
    Heard {
        how,
        size: handed.size as u16,
    }
}

// A message that passes 2 and 10 to 14, at a record in these bytes with this head. Ruled out: every message
// 'ahead'; a second copy taken over the first.
pub fn hear(h: &Head, s: &mut [u8], m: Message, content: &[u8], deliveries: &mut [u8]) -> Heard
    requires { Hearable (record_in h.now s.old) m content.now
        × (length s.old ≡ record_size)
        × (most_deliveries ≤ length deliveries.old) }
    ensures { (result ≡ heard_of (record_in h.now s.old) m content.now)
        × (s.new ≡ record_bytes (rec_heard (record_in h.now s.old) m content.now))
        × (deliveries.new ≡ followed_by
        (handed_heard (record_in h.now s.old) m content.now)
        deliveries.old) }
{
    let how = hearing_of(&h.log, m.number);
    if how != Hearing::IsKept {
        let handed = HeldLog::new(&h.log, record::contents_in(s)).hand_out(h.log.safe, deliveries);
        return put_heard(h, s, &h.log, how, handed);
    }
    let kept = keep(h.log, s, m, content);
    let handed = HeldLog::new(&kept, record::contents_in(s)).hand_out_kept(m, content, deliveries);
    put_heard(h, s, &kept, how, handed)
}
