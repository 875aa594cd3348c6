// The calls of `totem` as C sees them: a slice is a pointer and a length. Each calls the function of its name in
// `totem` and promises the same. include/totem.h declares and documents them.
#![tactic(auto)]

ghost use Rattle.std.specs.Prelude.{[], length};
ghost use Rattle.station.specs.Answer.{outcome_of};
ghost use Rattle.station.specs.Reply.{Does};
ghost use Rattle.station.specs.Over.{found_over, post_over, arrive_over, resend_over};

use station::Outcome;

// Founding. Ruled out: a record written with a refusal; an odd list read as a shorter one.
#[unsafe(no_mangle)]
pub extern "C" fn totem_found(
    bytes: &mut [u8],
    members: &[u8],
    own: u16,
    ring: u32,
    token: &mut [u8],
) -> Outcome
    ensures { Does outcome_of (found_over bytes.old members.now own ring (length token.old)) result
        bytes.old bytes.new token.old token.new [] [] }
{
    totem::totem_found(bytes, members, own, ring, token)
}

// Posting. Ruled out: 9 with an empty queue; a record of another length taken.
#[unsafe(no_mangle)]
pub extern "C" fn totem_post(bytes: &mut [u8], service: u16, content: &[u8]) -> Outcome
    ensures { Does outcome_of (post_over bytes.old service content.now) result
        bytes.old bytes.new [] [] [] [] }
{
    totem::totem_post(bytes, service, content)
}

// Arrival. Ruled out: the two buffers changed over; a record written with a refusal.
#[unsafe(no_mangle)]
pub extern "C" fn totem_arrive(
    bytes: &mut [u8],
    frame: &[u8],
    frames: &mut [u8],
    deliveries: &mut [u8],
) -> Outcome
    ensures { Does outcome_of
        (arrive_over bytes.old frame.now (length frames.old) (length deliveries.old)) result
        bytes.old bytes.new frames.old frames.new
        deliveries.old deliveries.new }
{
    totem::totem_arrive(bytes, frame, frames, deliveries)
}

// Resending. Ruled out: another token written; 2 where the buffer is too small already.
#[unsafe(no_mangle)]
pub extern "C" fn totem_resend(bytes: &[u8], frames: &mut [u8]) -> Outcome
    ensures { Does outcome_of (resend_over bytes.now (length frames.old)) result
        bytes.now bytes.now frames.old frames.new [] [] }
{
    totem::totem_resend(bytes, frames)
}
