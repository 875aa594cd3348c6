// Is it this ring's, and are they its members?
ghost use Rattle.std.specs.Prelude.{◌≡◌};
ghost use Rattle.record.specs.Ring.{this_ring, blocker_member, token_members, token_passes};

use crate::members;
use frames::{Blocker, Frame, Header, RingNumber, Token};

// Question 13.
pub fn this_ring(ring: RingNumber, ids: &[u16], h: Header) -> bool
    ensures { result ≡ this_ring ring.0 ids.now h }
{
    (h.ring.0 == ring.0) & (h.representative == members::representative_of(ids))
}

// One match, as question 14 puts it.
fn blocker_member(ids: &[u16], b: Blocker) -> bool
    ensures { result ≡ blocker_member ids.now b }
{
    match b {
        None => true,
        Some(id) => members::is_member(ids, id),
    }
}

// Question 14, of a token.
pub fn token_members(ids: &[u16], t: Token) -> bool
    ensures { result ≡ token_members ids.now t }
{
    members::is_member(ids, t.addressee) & blocker_member(ids, t.blocker)
}

// Is it a token that passes questions 10 to 14?
#[tactic(auto, unfolding(crate::specs::Ring::token_passes))]
pub fn token_passes(ring: RingNumber, ids: &[u16], frame: &[u8]) -> bool
    ensures { result ≡ token_passes ring.0 ids.now frame.now }
{
    match frames::read(frame) {
        Ok(Frame::Token(t)) => this_ring(ring, ids, t.header) & token_members(ids, t),
        _ => false,
    }
}
