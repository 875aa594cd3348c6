// Flow control: how many new messages a visit sends, and the round count and the backlog that it leaves. Steps 1, 3
// and 8.
ghost use Rattle.std.specs.Prelude.{◌≡◌, cond, ◌+◌, ◌-◌, ◌≤◌, ◌<◌, min, eqb, length};
ghost use Rattle.record.specs.Size.{most_posts};
ghost use Rattle.visit.specs.Visit.{most_new, most_in_round, share as Visit·share, repeats as Visit·repeats, new_count};
ghost use Rattle.visit.specs.inner.Steps.{visit_of};

use crate::token_visit::TokenVisit;
use record::Turn;

// New messages of one visit. The paper's max_messages.
const MOST_NEW: u32 = 8;

// Broadcasts of one round. The paper's window_size.
const MOST_IN_ROUND: u32 = 24;

// The others' part of a sum on the token: the round count, or the backlog, less one's own part.
pub fn others_part(sum: u16, own: u8) -> u32
    ensures { result ≡ sum - own }
{
    u32::from(sum).saturating_sub(u32::from(own))
}

// 1. What the round leaves, from the token's round count and what was broadcast at the last visit. Ruled out: one's
// own last broadcasts counted; nothing allowed after the first visit.
fn round_allowance(round: u16, t: &Turn) -> u32
    ensures { result ≡ min most_new (most_in_round - (round - t.now.broadcast)) }
{
    let others = others_part(round, t.broadcast);
    MOST_NEW.min(MOST_IN_ROUND.saturating_sub(others))
}

// 1. The share of what waits here. Ruled out: rounded up; nothing for one post beside many.
fn share(others: u32, own: u32) -> u32
    requires { (0 < own) × (own ≤ most_posts) × (others ≤ 65535) }
    ensures { result ≡ Visit·share others own }
{
    (MOST_IN_ROUND * own / (others + own)).max(1)
}

// 1. The allowance. Ruled out: one's own part left in the backlog; a limit where no post waits.
fn allowance(round: u16, backlog: u16, t: &Turn, waits: u8) -> u32
    requires { waits ≤ most_posts }
    ensures { result ≡ cond (eqb waits 0)
        (min most_new (most_in_round - (round - t.now.broadcast)))
        (min (min most_new (most_in_round - (round - t.now.broadcast))) (Visit·share (backlog - t.now.waited) waits)) }
{
    let allowed = round_allowance(round, t);
    if waits == 0 {
        return allowed;
    }
    allowed.min(share(others_part(backlog, t.waited), waits as u32))
}

impl TokenVisit<'_> {
    // 3. How many new messages. Ruled out: the posts alone decide; the repeats don't count.
    pub fn new_count(&self, repeats: u32) -> u32
        requires { repeats ≡ length (Visit·repeats (visit_of self.now)) }
        ensures { result ≡ new_count (visit_of self.now) }
    {
        let token = self.token;
        let highest = token.highest.0;
        let waits = self.head.posts.count;
        let allowed = allowance(token.round, token.backlog, &self.head.turn, waits).saturating_sub(
            repeats,
        );
        let window = (self.head.log.safe.0 + record::MOST_HELD as u32).saturating_sub(highest);
        let numbers = frames::MOST_NUMBER.saturating_sub(highest);
        allowed.min(waits as u32).min(window).min(numbers)
    }
}

// 8. A sum that goes on with the token: the others' part and one's own, at most `most`. Ruled out: one's own last part
// kept in; a sum made up.
pub fn sum_after(others: u32, own: u32, most: u16) -> u16
    requires { others + own ≤ 100000 }
    ensures { result ≡ min (others + own) most }
{
    (others + own).min(most as u32) as u16
}
