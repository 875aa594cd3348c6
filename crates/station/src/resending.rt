// Resending: from lent bytes, and by value.
ghost use Rattle.std.specs.Prelude.{◌≡◌, [], length};
ghost use Rattle.visit.specs.Output.{followed_by};
ghost use Rattle.station.specs.Reply.{done_of, answered, Does};
ghost use Rattle.station.specs.Resend.{resent};
ghost use Rattle.station.specs.Over.{resend_over};

use crate::answer::Answer;
use crate::done;
use crate::done::Done;
use crate::refusal::{Refusal, ask};
use record::Record;

// 1, 2 and 19; then the remembered token is written out. Ruled out: another token written; 2 where the buffer is
// too small already.
#[tactic(auto, using(crate::proofs::LentLaws::lent_rules, crate::proofs::ResendLaws::token_fits), unfolding(crate::specs::Over::resend_over, crate::specs::Resend::resent))]
pub fn resend_in(s: &[u8], frames: &mut [u8]) -> Result<Answer, Refusal>
    ensures { Does answered (resend_over s.now (length frames.old)) result
        s.now s.now frames.old frames.new [] [] }
{
    ask(visit::MOST_FRAMES <= frames.len(), Refusal::NoRoom)?;
    ask(record::is_whole_in(s), Refusal::NotWhole)?;
    let t = record::turn_in(s);
    ask(t.size != 0, Refusal::NothingToResend)?;
    visit::put_remembered(t, frames);
    Ok(Answer::Resent(t.size))
}

// Ruled out: another token written; the leave ended by resending.
pub fn resend_step(rec: Record, frames: &mut [u8]) -> Done
    ensures { let reply = resent rec (length frames.old) in
        (result ≡ done_of reply) × (frames.new ≡ followed_by reply.frames frames.old) }
{
    done::over_bytes(rec, frames, &mut [], |s, f, _| resend_in(s, f))
}
