// Requests: those whose message is held are repeats, the others stay, and missing numbers are added. Steps
// 2 and 7.
ghost use Rattle.std.specs.Prelude.{◌≡◌, [], not, ◌&&◌, List, ◌++◌, ℕ, ◌-◌, ◌≤◌, length, take};
ghost use Rattle.words.specs.Scan.{lacks};
ghost use Rattle.frames.specs.Number.{most_number};
ghost use Rattle.frames.specs.Layout.{most_requests};
ghost use Rattle.record.specs.inner.Head.{log_on};
ghost use Rattle.record.specs.Held.{holds};
ghost use Rattle.record.specs.Count.{those, numbers_after};

use crate::request_list::Requests;
use frames::MessageNumber;
use record::LogHead;

// Requests apart: those whose message is held, and the rest.
#[derive(Clone, Copy)]
pub struct Split {
    pub held: Requests,
    pub rest: Requests,
}

impl Split {
    // None yet.
    pub fn none() -> Split
        ensures { result ≡ record { held = []; rest = [] } }
    {
        Split {
            held: Requests::none(),
            rest: Requests::none(),
        }
    }

    // 2. Ruled out: a request struck off whose message isn't held; the rest in another order.
    pub fn take(&mut self, l: &LogHead, requests: &[u32])
        requires { (l.now.safe.0 ≤ most_number)
            × (length requests.now ≤ most_requests)
            × (self.old ≡ record { held = []; rest = [] }) }
        ensures { (contents : List ℕ) → self.new ≡ record {
          held = those (holds (log_on l.now contents)) requests.now;
          rest = those (λ n. not (holds (log_on l.now contents) n)) requests.now;
        } }
    {
        for n in requests {
            if record::is_held(l.safe, &l.senders, MessageNumber(*n)) {
                self.held.push(*n);
            } else {
                self.rest.push(*n);
            }
        }
    }
}

// 7. The numbers above `level` up to `top` that are neither held nor among `asked` are added, lowest first,
// up to 16. Ruled out: a number asked for twice; the highest first.
pub fn add_missing(
    l: &LogHead,
    asked: &Requests,
    level: MessageNumber,
    top: MessageNumber,
) -> Requests
    requires { (l.now.safe.0 ≤ most_number)
        × (top.0 ≤ most_number)
        × (level.0 ≤ most_number)
        × (length asked.now ≤ most_requests) }
    ensures { (contents : List ℕ) → result ≡ take most_requests
        (asked.now ++ those
        (λ n. not (holds (log_on l.now contents) n) && lacks asked.now n)
        (numbers_after level.0 (top.0 - level.0))) }
{
    let mut all = *asked;
    for last in level.0..top.0 {
        if all.is_full() {
            return all;
        }
        let n = last + 1;
        let free = !record::is_held(l.safe, &l.senders, MessageNumber(n));
        if free & words::lacks(asked.as_slice(), n) {
            all.push(n);
        }
    }
    all
}
