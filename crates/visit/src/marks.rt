// Steps 4 to 6: aru and its blocker, the stall count and the notice 'deaf', the safe mark.
ghost use Rattle.std.specs.Prelude.{◌≡◌, not, ◌&&◌, ◌||◌, cond, ◌+◌, min, max, ltb, eqb};
ghost use Rattle.record.specs.Size.{most_stall};
ghost use Rattle.visit.specs.Visit.{is_nobody, is_own, own_or_nobody, deaf_above};
ghost use Rattle.visit.specs.inner.Steps.{reach_after};

use frames::{Blocker, MessageNumber};
use record::Turn;

// More visits than this with oneself as blocker: deaf. The paper's fail_to_rcv_const.
const DEAF_ABOVE: u8 = 10;

// How far everybody has come, as far as the token knows, and who holds it there.
#[derive(Clone, Copy)]
pub struct Reach {
    pub aru: MessageNumber,
    pub blocker: Blocker,
}

fn sets_aru(own: u16, level: MessageNumber, aru: MessageNumber, blocker: Blocker) -> bool
    ensures { result ≡ (ltb level.0 aru.0 || own_or_nobody own blocker) }
{
    (level.0 < aru.0) | blocker.is_none() | (blocker == Some(own))
}

// 4. aru and blocker. Ruled out: aru raised while another is its blocker; a blocker with aru at the highest.
pub fn reach_after(
    own: u16,
    level: MessageNumber,
    highest: MessageNumber,
    aru: MessageNumber,
    blocker: Blocker,
) -> Reach
    ensures { result ≡ reach_after own level highest aru blocker }
{
    if !sets_aru(own, level, aru, blocker) {
        return Reach { aru, blocker };
    }
    if level.0 == highest.0 {
        return Reach {
            aru: level,
            blocker: None,
        };
    }
    Reach {
        aru: level,
        blocker: Some(own),
    }
}

// 5. The stall count.
pub fn stall_after(t: &Turn, aru: MessageNumber, blocker: Blocker) -> u8
    ensures { result ≡
        cond (eqb aru.0 t.now.aru.0 && not (is_nobody blocker)) (min (t.now.stall + 1) most_stall) 0 }
{
    if (aru.0 != t.aru.0) | blocker.is_none() {
        return 0;
    }
    t.stall.saturating_add(1)
}

// 5. The id in the notice 'deaf', or 0, a number as in `Visited`.
pub fn deaf_after(own: u16, stall: u8, blocker: Blocker) -> u16
    ensures { result ≡ cond (ltb deaf_above stall && is_own own blocker) own 0 }
{
    if (DEAF_ABOVE < stall) & (blocker == Some(own)) {
        own
    } else {
        0
    }
}

// 6. The safe mark. Ruled out: this visit's aru alone; a mark that falls.
pub fn safe_after(safe: MessageNumber, before: MessageNumber, aru: MessageNumber) -> MessageNumber
    ensures { result.0 ≡ max safe.0 (min before.0 aru.0) }
{
    MessageNumber(safe.0.max(before.0.min(aru.0)))
}
