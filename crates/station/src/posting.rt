// Posting: in lent bytes, and by value.
ghost use Rattle.std.specs.Prelude.{◌≡◌, []};
ghost use Rattle.station.specs.Reply.{done_of, answered, Does};
ghost use Rattle.station.specs.Post.{posted};
ghost use Rattle.station.specs.Over.{post_over};

use crate::answer::Answer;
use crate::done;
use crate::done::Done;
use crate::refusal::{Refusal, ask};
use record::Record;

// 2 and 7 to 9; then one post more waits. Ruled out: 9 with an empty queue; a record of another length taken.
#[tactic(auto, using(crate::proofs::LentLaws::lent_rules), unfolding(crate::specs::Over::post_over, crate::specs::Post::posted))]
pub fn post_in(s: &mut [u8], service: u16, content: &[u8]) -> Result<Answer, Refusal>
    ensures { Does answered (post_over s.old service content.now) result
        s.old s.new [] [] [] [] }
{
    ask(record::is_whole_in(s), Refusal::NotWhole)?;
    ask(content.len() <= frames::MOST_CONTENT, Refusal::LongContent)?;
    ask(service <= frames::MOST_SERVICE, Refusal::OtherService)?;
    let waiting = record::post_count(s) as usize;
    ask(waiting < record::MOST_POSTS, Refusal::PostsFull)?;
    record::put_post(s, service, content);
    Ok(Answer::Posted)
}

// Ruled out: a refusal that leaves a post; a post that changes a mark.
pub fn post_step(rec: Record, service: u16, content: &[u8]) -> Done
    ensures { result ≡ done_of (posted rec service content.now) }
{
    done::over_bytes(
        rec,
        &mut [],
        &mut [],
        |s, _, _| post_in(s, service, content),
    )
}
