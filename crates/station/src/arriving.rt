// Arrival: the questions at the door, and what the frame is. In lent bytes, and by value.
ghost use Rattle.std.specs.Prelude.{◌≡◌, true, [], ◌≤◌, length, take};
ghost use Rattle.frames.specs.Message.{message_follows};
ghost use Rattle.frames.specs.Token.{token_follows};
ghost use Rattle.frames.specs.Read.{read_of};
ghost use Rattle.record.specs.inner.Head.{record_in};
ghost use Rattle.visit.specs.Output.{followed_by, most_frames, most_deliveries};
ghost use Rattle.station.specs.Reply.{done_of, answered, Does};
ghost use Rattle.station.specs.Arrive.{reader_refusal, heard_answer, message_arrived, token_arrived, frame_arrived, arrived};
ghost use Rattle.station.specs.Over.{arrive_over};
ghost use Rattle.station.specs.inner.Value.{HeadIn};

use crate::answer::Answer;
use crate::done;
use crate::done::Done;
use crate::refusal::{Refusal, ask};
use frames::{Frame, Message, Token};
use record::{Head, LogHead, Record};
use visit::{Heard, Hearing};

// 10 to 12 are the reader's.
impl From<frames::Refusal> for Refusal {
    ghost from_gives = { λ why r. r ≡ reader_refusal why };

    fn from(why: frames::Refusal) -> Refusal {
        match why {
            frames::Refusal::NoRoom => Refusal::NoRoom,
            frames::Refusal::WrongLength => Refusal::WrongLength,
            frames::Refusal::OtherKind => Refusal::OtherKind,
            frames::Refusal::Malformed => Refusal::Malformed,
        }
    }
}

// A message's arrival: had, ahead or kept.
impl From<Heard> for Answer {
    ghost from_gives = { λ h a. a ≡ heard_answer h.how h.size };

    fn from(h: Heard) -> Answer {
        match h.how {
            Hearing::WasHad => Answer::Had(h.size),
            Hearing::IsAhead => Answer::Ahead(h.size),
            Hearing::IsKept => Answer::Kept(h.size),
        }
    }
}

// The members' ids.
fn ids(l: &LogHead) -> &[u16]
    requires { l.now.count ≤ length l.now.members }
    ensures { result.now ≡ take l.now.count l.now.members }
{
    &l.members[..l.count as usize]
}

// Each of the next three asks that the head is of the whole record in these bytes (`HeadIn`). Tried as a struct with a
// ghost field beside the `&mut`: the check does not cover lending from one.

// 13 and 14, of a message, at the record in these bytes with this head.
#[tactic(auto, unfolding(crate::specs::Arrive::message_arrived))]
fn message_arrived(
    h: &Head,
    s: &mut [u8],
    m: Message,
    content: &[u8],
    deliveries: &mut [u8],
) -> Result<Answer, Refusal>
    requires { HeadIn h.now s.old × (message_follows m content.now ≡ true) × (most_deliveries ≤ length deliveries.old) }
    ensures { Does answered (message_arrived (record_in h.now s.old) m content.now) result
        s.old s.new [] [] deliveries.old deliveries.new }
{
    let ids = ids(&h.log);
    ask(
        record::this_ring(h.log.ring, ids, m.header),
        Refusal::OtherRing,
    )?;
    ask(record::is_member(ids, m.sender), Refusal::NotMember)?;
    let heard = visit::hear(h, s, m, content, deliveries);
    Ok(Answer::from(heard))
}

// 13 to 18, of a token.
#[tactic(auto, unfolding(crate::specs::Arrive::token_arrived))]
fn token_arrived(
    h: &Head,
    s: &mut [u8],
    t: &Token,
    frames: &mut [u8],
    deliveries: &mut [u8],
) -> Result<Answer, Refusal>
    requires { HeadIn h.now s.old
        × (token_follows t.now ≡ true)
        × (most_frames ≤ length frames.old)
        × (most_deliveries ≤ length deliveries.old) }
    ensures { Does answered (token_arrived (record_in h.now s.old) t.now) result
        s.old s.new frames.old frames.new
        deliveries.old deliveries.new }
{
    let ids = ids(&h.log);
    ask(
        record::this_ring(h.log.ring, ids, t.header),
        Refusal::OtherRing,
    )?;
    ask(record::token_members(ids, *t), Refusal::NotMember)?;
    ask(t.addressee == h.own, Refusal::OtherAddressee)?;
    ask(h.turn.number.0 < t.number.0, Refusal::OldToken)?;
    ask(t.number.0 < frames::MOST_NUMBER, Refusal::LastToken)?;
    ask(visit::covers_held(&h.log, t.highest), Refusal::BelowHeld)?;
    let visited = visit::accept(h, s, t, frames, deliveries);
    Ok(Answer::Accepted {
        frames: visited.frames,
        deliveries: visited.deliveries,
        deaf: visited.deaf,
    })
}

// By what the reader says.
#[tactic(auto, using(crate::proofs::ArriveLaws::message_there, crate::proofs::ArriveLaws::token_there, crate::proofs::ArriveLaws::writes_none))]
fn frame_arrived(
    h: &Head,
    s: &mut [u8],
    frame: &[u8],
    frames: &mut [u8],
    deliveries: &mut [u8],
) -> Result<Answer, Refusal>
    requires { HeadIn h.now s.old × (most_frames ≤ length frames.old) × (most_deliveries ≤ length deliveries.old) }
    ensures { Does answered (frame_arrived (record_in h.now s.old) frame.now (read_of frame.now)) result
        s.old s.new frames.old frames.new
        deliveries.old deliveries.new }
{
    match frames::read(frame)? {
        Frame::Message(m) => message_arrived(h, s, m, frames::content(frame), deliveries),
        Frame::Token(t) => token_arrived(h, s, &t, frames, deliveries),
    }
}

// A frame of any bytes and length arrives at the record in these bytes: 1 and 2, then what the frame is asked.
// Ruled out: every message 'ahead'; a record written with a refusal.
#[tactic(auto, unfolding(crate::specs::Over::arrive_over, crate::specs::Arrive::arrived))]
pub fn arrive_in(
    s: &mut [u8],
    frame: &[u8],
    frames: &mut [u8],
    deliveries: &mut [u8],
) -> Result<Answer, Refusal>
    ensures { Does answered
        (arrive_over s.old frame.now (length frames.old) (length deliveries.old)) result
        s.old s.new frames.old frames.new
        deliveries.old deliveries.new }
{
    ask(visit::MOST_FRAMES <= frames.len(), Refusal::NoRoom)?;
    ask(visit::MOST_DELIVERIES <= deliveries.len(), Refusal::NoRoom)?;
    let head = record::head_in(s);
    ask(record::is_whole_at(head, s), Refusal::NotWhole)?;
    frame_arrived(&head, s, frame, frames, deliveries)
}

// Ruled out: every message 'ahead'; tokens passed along untouched.
pub fn arrive_step(rec: Record, frame: &[u8], frames: &mut [u8], deliveries: &mut [u8]) -> Done
    ensures { let reply = arrived rec frame.now (length frames.old) (length deliveries.old) in
        (result ≡ done_of reply)
        × (frames.new ≡ followed_by reply.frames frames.old)
        × (deliveries.new ≡ followed_by reply.deliveries deliveries.old) }
{
    done::over_bytes(rec, frames, deliveries, |s, f, d| arrive_in(s, frame, f, d))
}
