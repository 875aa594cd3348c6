// The calls for hosts in C: thin functions on numbers and byte slices, the station's calls in lent bytes with their
// answer in document 01's numbers. totem_c exports them.
#![tactic(auto)]

ghost use Rattle.std.specs.Prelude.{[], length};
ghost use Rattle.station.specs.Answer.{outcome_of};
ghost use Rattle.station.specs.Reply.{Does};
ghost use Rattle.station.specs.Over.{found_over, post_over, arrive_over, resend_over};

use frames::RingNumber;
use station::Outcome;

// Founding. Ruled out: a record written with a refusal; an odd list read as a shorter one.
pub fn totem_found(
    bytes: &mut [u8],
    members: &[u8],
    own: u16,
    ring: u32,
    token: &mut [u8],
) -> Outcome
    ensures { Does outcome_of (found_over bytes.old members.now own ring (length token.old)) result
        bytes.old bytes.new token.old token.new [] [] }
{
    let founded = station::found_in(bytes, members, own, RingNumber(ring), token);
    Outcome::from(founded)
}

// Posting. Ruled out: 9 with an empty queue; a record of another length taken.
pub fn totem_post(bytes: &mut [u8], service: u16, content: &[u8]) -> Outcome
    ensures { Does outcome_of (post_over bytes.old service content.now) result
        bytes.old bytes.new [] [] [] [] }
{
    let posted = station::post_in(bytes, service, content);
    Outcome::from(posted)
}

// Arrival. Ruled out: every message 'ahead'; a record written with a refusal.
pub fn totem_arrive(
    bytes: &mut [u8],
    frame: &[u8],
    frames: &mut [u8],
    deliveries: &mut [u8],
) -> Outcome
    ensures { Does outcome_of
        (arrive_over bytes.old frame.now (length frames.old) (length deliveries.old)) result
        bytes.old bytes.new frames.old frames.new
        deliveries.old deliveries.new }
{
    let arrived = station::arrive_in(bytes, frame, frames, deliveries);
    Outcome::from(arrived)
}

// Resending. Ruled out: another token written; 2 where the buffer is too small already.
pub fn totem_resend(bytes: &[u8], frames: &mut [u8]) -> Outcome
    ensures { Does outcome_of (resend_over bytes.now (length frames.old)) result
        bytes.now bytes.now frames.old frames.new [] [] }
{
    let resent = station::resend_in(bytes, frames);
    Outcome::from(resent)
}
