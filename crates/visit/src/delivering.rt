// Delivery: which messages are due, and their frames.
ghost use Rattle.std.specs.Prelude.{◌≡◌, true, List, ℕ, ◌+◌, ◌*◌, ◌≤◌, ◌<◌, length};
ghost use Rattle.std.proofs.lemmas.List.Edits.{sets};
ghost use Rattle.frames.specs.Number.{most_number};
ghost use Rattle.frames.specs.Layout.{longest_message};
ghost use Rattle.record.specs.Count.{numbers_after};
ghost use Rattle.record.specs.Held.{holds};
ghost use Rattle.record.specs.inner.Head.{log_on};
ghost use Rattle.visit.specs.Output.{followed_by, most_deliveries};
ghost use Rattle.visit.specs.Deliver.{is_due, due, handed_out};
ghost use Rattle.visit.specs.inner.Steps.{held_log, frames_of, JustKept};

use crate::held_frames;
use crate::held_log::HeldLog;
use frames::{Message, MessageNumber};

// How many were delivered, and the size of their frames.
#[derive(Clone, Copy, Debug, PartialEq, Eq)]
pub struct Handed {
    pub count: u32,
    pub size: usize,
}

impl HeldLog<'_> {
    // Agreed, or at most the safe mark?
    fn is_due(&self, safe: MessageNumber, n: MessageNumber) -> bool
        ensures { (contents : List ℕ) → result ≡ is_due (log_on self.now.log.now contents) safe.0 n.0 }
    {
        let place = n.0 as usize % record::MOST_HELD;
        (self.log.services[place] == 0) | (n.0 <= safe.0)
    }

    // How many messages are due.
    fn due_count(&self, safe: MessageNumber) -> u32
        ensures { (contents : List ℕ) → result ≡ length (due (log_on self.now.log.now contents) safe.0) }
    {
        let delivered = self.log.delivered.0;
        let level = self.log.level.0;
        for last in delivered..level {
            if !self.is_due(safe, MessageNumber(last + 1)) {
                return last - delivered;
            }
        }
        level.saturating_sub(delivered)
    }

    // Hands out what is due by a safe mark. Ruled out: a safe message above the mark handed out; the frames
    // in another order.
    pub fn hand_out(&self, safe: MessageNumber, out: &mut [u8]) -> Handed
        requires { most_deliveries ≤ length out.old }
        ensures { (result.count ≡ length (due (held_log self.now) safe.0))
            × (result.size ≡ length (handed_out (held_log self.now) safe.0))
            × (out.new ≡ followed_by (handed_out (held_log self.now) safe.0) out.old) }
    {
        let count = self.due_count(safe);
        let size = self.put_run(self.log.delivered, count, out, 0);
        Handed { count, size }
    }

    // The frames of the n numbers after the delivered mark. A message that has just been kept is written from
    // the part of its own frame where it is the first of them; all others are written from the log.
    fn put_due(&self, n: u32, m: Message, content: &[u8], out: &mut [u8]) -> usize
        requires { JustKept (held_log self.now) m content.now
            × ((k : ℕ) → self.now.log.now.delivered.0 < k → k ≤ self.now.log.now.delivered.0 + n → holds (held_log self.now) k ≡ true)
            × (self.now.log.now.delivered.0 + n ≤ most_number)
            × (longest_message * n ≤ length out.old) }
        ensures { (result ≡ length (frames_of (held_log self.now) (numbers_after self.now.log.now.delivered.0 n)))
            × (out.new ≡ sets out.old 0
            (frames_of (held_log self.now) (numbers_after self.now.log.now.delivered.0 n))) }
    {
        let delivered = self.log.delivered;
        if n == 0 {
            return 0;
        }
        if m.number.0 != delivered.0 + 1 {
            return self.put_run(delivered, n, out, 0);
        }
        let at = held_frames::put_message(m, content, out, 0);
        self.put_run(m.number, n - 1, out, at)
    }

    // Hands out what is due once a message has been kept: its content goes on from the frame to the delivery
    // as it went to the log. Ruled out: the message handed out with another's content; a message kept ahead of
    // a gap handed out.
    pub fn hand_out_kept(&self, m: Message, content: &[u8], out: &mut [u8]) -> Handed
        requires { JustKept (held_log self.now) m content.now × (most_deliveries ≤ length out.old) }
        ensures { (result.count ≡ length (due (held_log self.now) self.now.log.now.safe.0))
            × (result.size ≡ length (handed_out (held_log self.now) self.now.log.now.safe.0))
            × (out.new ≡ followed_by (handed_out (held_log self.now) self.now.log.now.safe.0) out.old) }
    {
        let count = self.due_count(self.log.safe);
        let size = self.put_due(count, m, content, out);
        Handed { count, size }
    }
}
