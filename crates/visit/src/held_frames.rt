// The frames of held messages, put one after another into a buffer. Each function answers the place after
// what it put. The place goes beside the buffer as a number: a struct of both would hold the loan of the buffer, and
// each contract would say of its fields before and after what it says here of the buffer alone.
ghost use Rattle.std.specs.Prelude.{◌≡◌, true, List, ℕ, ◌+◌, ◌*◌, ◌≤◌, ◌<◌, length};
ghost use Rattle.std.proofs.lemmas.List.Edits.{sets};
ghost use Rattle.frames.specs.Number.{most_number};
ghost use Rattle.frames.specs.Layout.{longest_message};
ghost use Rattle.frames.specs.Message.{message_follows, message_bytes};
ghost use Rattle.record.specs.Count.{numbers_after};
ghost use Rattle.record.specs.Held.{holds};
ghost use Rattle.record.specs.Size.{most_members};
ghost use Rattle.record.specs.inner.Head.{log_on};
ghost use Rattle.visit.specs.Deliver.{ring_header, frame_of};
ghost use Rattle.visit.specs.Reads.{Each};
ghost use Rattle.visit.specs.inner.Steps.{held_log, frames_of};

use crate::held_log::HeldLog;
use frames::{Header, Message, MessageNumber};
use record::LogHead;

// The header of this ring's frames.
pub fn ring_header(l: &LogHead) -> Header
    requires { l.now.count ≤ most_members }
    ensures { (contents : List ℕ) → result ≡ ring_header (log_on l.now contents) }
{
    let n = l.count as usize;
    Header {
        ring: l.ring,
        representative: record::representative_of(&l.members[0..n]),
    }
}

// The frame of a message, its content wherever that stands.
pub fn put_message(m: Message, content: &[u8], out: &mut [u8], at: usize) -> usize
    requires { (message_follows m content.now ≡ true)
        × (at + length (message_bytes m content.now) ≤ length out.old) }
    ensures { (result ≡ at + length (message_bytes m content.now))
        × (out.new ≡ sets out.old at (message_bytes m content.now)) }
{
    frames::put_message(m, content, &mut out[at..]);
    at + frames::SHORTEST_MESSAGE + content.len()
}

impl HeldLog<'_> {
    // The frame of a number that is held.
    fn put_held(&self, n: MessageNumber, out: &mut [u8], at: usize) -> usize
        requires { (holds (held_log self.now) n.0 ≡ true) × (at + longest_message ≤ length out.old) }
        ensures { (result ≡ at + length (frame_of (held_log self.now) n.0))
            × (out.new ≡ sets out.old at (frame_of (held_log self.now) n.0)) }
    {
        let log = self.log;
        let place = n.0 as usize % record::MOST_HELD;
        let from = frames::MOST_CONTENT * place;
        let end = from + log.lengths[place] as usize;
        let m = Message {
            header: self.header,
            sender: log.senders[place],
            number: n,
            service: log.services[place],
        };
        put_message(m, &self.contents[from..end], out, at)
    }

    // The frames of numbers that are held, in their order.
    pub fn put_each(&self, numbers: &[u32], out: &mut [u8], at: usize) -> usize
        requires { Each (λ n. holds (held_log self.now) n ≡ true) numbers.now
            × (at + longest_message * length numbers.now ≤ length out.old) }
        ensures { (result ≡ at + length (frames_of (held_log self.now) numbers.now))
            × (out.new ≡ sets out.old at (frames_of (held_log self.now) numbers.now)) }
    {
        let mut at = at;
        for n in numbers {
            at = self.put_held(MessageNumber(*n), out, at);
        }
        at
    }

    // The frames of the n numbers after one, all of them held.
    pub fn put_run(&self, last: MessageNumber, n: u32, out: &mut [u8], at: usize) -> usize
        requires { ((k : ℕ) → last.0 < k → k ≤ last.0 + n → holds (held_log self.now) k ≡ true)
            × (last.0 + n ≤ most_number)
            × (at + longest_message * n ≤ length out.old) }
        ensures { (result ≡ at + length (frames_of (held_log self.now) (numbers_after last.0 n)))
            × (out.new ≡ sets out.old at (frames_of (held_log self.now) (numbers_after last.0 n))) }
    {
        let mut at = at;
        for i in 0..n {
            at = self.put_held(MessageNumber(last.0 + i + 1), out, at);
        }
        at
    }
}
