// The level rises as far as it can. No content is looked at for it: the log is its head over any contents.
ghost use Rattle.std.specs.Prelude.{◌≡◌, not, ◌&&◌, List, ℕ, ◌+◌, ◌≤◌, get_or, ltb, leb, eqb};
ghost use Rattle.frames.specs.Number.{most_number};
ghost use Rattle.record.specs.Size.{most_held};
ghost use Rattle.record.specs.inner.Head.{log_on};
ghost use Rattle.record.specs.Held.{place_of};
ghost use Rattle.visit.specs.Level.{reached, raised};

use frames::MessageNumber;
use record::LogHead;

// By the level, the safe mark and the senders of all places, which are lent.
pub fn level_of(
    level: MessageNumber,
    safe: MessageNumber,
    senders: &[u16; record::MOST_HELD],
) -> MessageNumber
    requires { (safe.0 ≤ most_number) × (level.0 ≤ most_number) }
    ensures { result.0 ≡ reached
        (λ n. ltb safe.0 n && leb n (safe.0 + most_held) && not (eqb (get_or senders.now (place_of n) 0) 0))
        most_held level.0 }
{
    let most = level.0 + record::MOST_HELD as u32;
    for reached in level.0..most {
        if !record::is_held(safe, senders, MessageNumber(reached + 1)) {
            return MessageNumber(reached);
        }
    }
    MessageNumber(most)
}

// The log with its level risen. Ruled out: a rise past a gap; a rise by one where more is held.
pub fn raise(l: LogHead) -> LogHead
    requires { (l.safe.0 ≤ most_number) × (l.level.0 ≤ most_number) }
    ensures { (contents : List ℕ) → log_on result contents ≡ raised (log_on l contents) }
{
    let level = level_of(l.level, l.safe, &l.senders);
    LogHead { level, ..l }
}
