// The head of a log and its bytes. The contents that stand after it are left alone.
ghost use Rattle.std.specs.Prelude.{◌≡◌, ◌++◌, ◌+◌, ◌≤◌, length};
ghost use Rattle.std.proofs.lemmas.List.Edits.{sets};
ghost use Rattle.words.specs.Run.{words_bytes};
ghost use Rattle.record.specs.Layout.{log_size, held_contents_at};
ghost use Rattle.record.specs.Bytes.{log_of, log_bytes};
ghost use Rattle.record.specs.inner.Head.{log_on, contents_in};

use crate::head::LogHead;
use crate::{layout, size};
use frames::{MessageNumber, RingNumber};
use words::Word;

pub fn get_log_head(s: &[u8]) -> LogHead
    requires { log_size ≤ length s.now }
    ensures { log_on result (contents_in s.now 0) ≡ log_of s.now }
{
    let mut members = [0u16; size::MOST_MEMBERS];
    words::get_run(s, layout::MEMBERS_AT, size::MOST_MEMBERS, &mut members);
    let mut senders = [0u16; size::MOST_HELD];
    words::get_run(
        s,
        layout::HELD_AT + layout::SENDERS_AT,
        size::MOST_HELD,
        &mut senders,
    );
    let mut services = [0u16; size::MOST_HELD];
    words::get_run(
        s,
        layout::HELD_AT + layout::HELD_SERVICES_AT,
        size::MOST_HELD,
        &mut services,
    );
    let mut lengths = [0u8; size::MOST_HELD];
    words::get_slice(
        s,
        layout::HELD_AT + layout::HELD_LENGTHS_AT,
        size::MOST_HELD,
        &mut lengths,
    );
    LogHead {
        ring: RingNumber(u32::get(s, layout::LOG_RING_AT)),
        count: u8::get(s, layout::MEMBER_COUNT_AT),
        members,
        level: MessageNumber(u32::get(s, layout::LEVEL_AT)),
        safe: MessageNumber(u32::get(s, layout::SAFE_AT)),
        delivered: MessageNumber(u32::get(s, layout::DELIVERED_AT)),
        senders,
        services,
        lengths,
    }
}

// The held messages' senders, services and lengths.
fn put_places(out: &mut [u8], at: usize, l: LogHead)
    requires { at + held_contents_at ≤ length out.old }
    ensures { out.new
        ≡ sets out.old at (words_bytes 2 l.senders ++ words_bytes 2 l.services ++ l.lengths) }
{
    words::put_run(out, at + layout::SENDERS_AT, &l.senders);
    words::put_run(out, at + layout::HELD_SERVICES_AT, &l.services);
    words::put_slice(out, at + layout::HELD_LENGTHS_AT, &l.lengths);
}

pub fn put_log_head(out: &mut [u8], at: usize, l: LogHead)
    requires { at + log_size ≤ length out.old }
    ensures { out.new ≡ sets out.old at (log_bytes (log_on l (contents_in out.old at))) }
{
    let members = l.members;
    u32::put(out, at + layout::LOG_RING_AT, l.ring.0);
    u8::put(out, at + layout::MEMBER_COUNT_AT, l.count);
    words::put_run(out, at + layout::MEMBERS_AT, &members);
    u32::put(out, at + layout::LEVEL_AT, l.level.0);
    u32::put(out, at + layout::SAFE_AT, l.safe.0);
    u32::put(out, at + layout::DELIVERED_AT, l.delivered.0);
    put_places(out, at + layout::HELD_AT, l);
}
