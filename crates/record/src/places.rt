// A question that is asked of every place of a log.
ghost use Rattle.std.specs.Prelude.{◌≡◌, ℕ, Bool, not, get_or, eqb};
ghost use Rattle.record.specs.Size.{most_held};
ghost use Rattle.record.specs.Count.{every_from};
ghost use Rattle.record.specs.inner.Places.{before_in};

use crate::{held, size};
use frames::MessageNumber;

// Does every place pass a test, which is asked how many numbers above the safe mark come before the place's own, and
// whether the place is in use? With no way out of the loop, so that the compiler can test many at once. Ruled out: the
// last place passed over; a free place taken for one in use.
pub fn every_place<F: Fn(u32, bool) -> bool>(
    safe: MessageNumber,
    senders: &[u16; size::MOST_HELD],
    passes: F,
) -> bool
    requires { F.IsAlwaysCallable passes }
    ensures { (test : ℕ → Bool → Bool)
        → ((before : ℕ) (used : Bool) (r : Bool) → F.post passes before used r → r ≡ test before used)
        → result ≡ every_from (λ place. test (before_in safe.0 place) (not (eqb (get_or senders.now place 0) 0))) 0 most_held }
{
    let mut good = true;
    for (place, sender) in senders.iter().enumerate() {
        let before = held::numbers_before(safe, place);
        good = good & passes(before, *sender != 0);
    }
    good
}
