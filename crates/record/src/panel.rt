// What the panel shows.
ghost use Rattle.std.specs.Prelude.{◌≡◌, cond, List, ℕ};
ghost use Rattle.record.specs.Panel.{undelivered as Panel·undelivered};
ghost use Rattle.record.specs.inner.Head.{log_on};

use crate::head::LogHead;
use crate::{held, size};

// How many messages are held and not delivered. Place by place, with no way out of the loop, so that the compiler can
// count many at once. A closure for this and the tests of every place was tried: a visit then took 1.13 times the
// oracle's time. Ruled out: delivered ones counted; those behind a gap left out.
pub fn undelivered(l: LogHead) -> u8
    ensures { (contents : List ℕ) → result ≡ Panel·undelivered (log_on l contents) }
{
    let senders = l.senders;
    let past = l.delivered.0.saturating_sub(l.safe.0);
    let mut count = 0u8;
    for (i, sender) in senders.iter().enumerate() {
        let before = held::numbers_before(l.safe, i);
        count = count + u8::from((past <= before) & (*sender != 0));
    }
    count
}
