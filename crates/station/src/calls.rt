// The public calls: the record is lent and changed there. Each is its step by value, the record stored
// back. A refusal's reply has the record as it was and no bytes, so it alters nothing.
ghost use Rattle.std.specs.Prelude.{◌≡◌, length};
ghost use Rattle.visit.specs.Output.{followed_by};
ghost use Rattle.station.specs.Found.{founded_on};
ghost use Rattle.station.specs.Post.{posted};
ghost use Rattle.station.specs.Resend.{resent};
ghost use Rattle.station.specs.Arrive.{arrived};

use crate::answer::Answer;
use crate::refusal::Refusal;
use crate::{arriving, founding, posting, resending};
use frames::RingNumber;
use record::Record;

// A fresh record, and the ring's first token. Ruled out: the members sorted; a token addressed to
// the own id.
pub fn found(
    rec: &mut Record,
    ids: &[u16],
    own: u16,
    ring: RingNumber,
    token: &mut [u8],
) -> Result<Answer, Refusal>
    ensures { let reply = founded_on rec.old (length token.old) ids.now own ring.0 in
        (rec.new ≡ reply.rec)
        × (result ≡ reply.answer)
        × (token.new ≡ followed_by reply.frames token.old) }
{
    founding::found_step(*rec, ids, own, ring, token).store(rec)
}

// One post more waits. Ruled out: 9 with an empty queue; a mark changed.
pub fn post(rec: &mut Record, service: u16, content: &[u8]) -> Result<Answer, Refusal>
    ensures { let reply = posted rec.old service content.now in
        (rec.new ≡ reply.rec) × (result ≡ reply.answer) }
{
    posting::post_step(*rec, service, content).store(rec)
}

// A frame arrives. Ruled out: every message 'ahead'; tokens passed along untouched.
pub fn arrive(
    rec: &mut Record,
    frame: &[u8],
    frames: &mut [u8],
    deliveries: &mut [u8],
) -> Result<Answer, Refusal>
    ensures { let reply = arrived rec.old frame.now (length frames.old) (length deliveries.old) in
        (rec.new ≡ reply.rec)
        × (result ≡ reply.answer)
        × (frames.new ≡ followed_by reply.frames frames.old)
        × (deliveries.new ≡ followed_by reply.deliveries deliveries.old) }
{
    arriving::arrive_step(*rec, frame, frames, deliveries).store(rec)
}

// The remembered token is written out again. Ruled out: another token written; the leave ended.
pub fn resend(rec: &mut Record, frames: &mut [u8]) -> Result<Answer, Refusal>
    ensures { let reply = resent rec.old (length frames.old) in
        (rec.new ≡ reply.rec)
        × (result ≡ reply.answer)
        × (frames.new ≡ followed_by reply.frames frames.old) }
{
    resending::resend_step(*rec, frames).store(rec)
}
