// Question 18.
ghost use Rattle.std.specs.Prelude.{◌≡◌, List, ℕ};
ghost use Rattle.record.specs.inner.Head.{log_on};
ghost use Rattle.visit.specs.Acceptable.{covers_held};

use frames::MessageNumber;
use record::LogHead;

// Is the highest at least the level and every number held? Ruled out: a held number above the highest; a free place taken for one.
pub fn covers_held(l: &LogHead, highest: MessageNumber) -> bool
    ensures { (contents : List ℕ) → result ≡ covers_held (log_on l.now contents) highest.0 }
{
    if highest.0 < l.level.0 {
        return false;
    }
    let covered = highest.0.saturating_sub(l.safe.0);
    record::every_place(
        l.safe,
        &l.senders,
        |before, in_use| (before < covered) | !in_use,
    )
}
