// What a call answers, and the same in document 01's numbers.
ghost use Rattle.std.specs.Prelude.{◌≡◌};
ghost use Rattle.station.specs.Answer.{happened, outcome_of};

use crate::refusal::Refusal;

// What happened, where no question was answered 'no'.
#[derive(Clone, Copy, Debug, PartialEq, Eq)]
pub enum Answer {
    // The ring's first token is written out.
    Founded,
    Posted,
    // A message arrived. It is kept, or was had, or is too far ahead; this many bytes are delivered.
    Kept(u16),
    Had(u16),
    Ahead(u16),
    // A token arrived and was accepted: the bytes written for the cable, the bytes delivered, and the id
    // in the notice 'deaf', or 0: a number, since by theorem OutcomeFixes no two answers have the same numbers, and
    // `Some(0)` would have those of `None`.
    Accepted {
        frames: u16,
        deliveries: u16,
        deaf: u16,
    },
    // The remembered token is written out, this many bytes.
    Resent(u8),
}

// The answer in numbers, as hosts in C get it.
#[repr(C)]
#[derive(Clone, Copy, Debug, PartialEq, Eq)]
pub struct Outcome {
    // The question that was answered 'no', or 0.
    pub refusal: u16,
    // What happened: 0 with a refusal, else 1 founded, 2 posted, 3 kept, 4 had, 5 ahead, 6 accepted,
    // 7 resent.
    pub outcome: u16,
    // Output counts, in bytes.
    pub frames: u16,
    pub deliveries: u16,
    // The id in the notice 'deaf', or 0.
    pub deaf: u16,
}

// Nothing is refused: what happened, the counts, and the id in the notice 'deaf'.
fn happened(outcome: u16, frames: u16, deliveries: u16, deaf: u16) -> Outcome
    ensures { result ≡ happened outcome frames deliveries deaf }
{
    Outcome {
        refusal: 0,
        outcome,
        frames,
        deliveries,
        deaf,
    }
}

// Ruled out: a count with a refusal; a refusal that reads like an outcome.
impl From<Result<Answer, Refusal>> for Outcome {
    ghost from_gives = { λ a o. o ≡ outcome_of a };

    fn from(a: Result<Answer, Refusal>) -> Outcome {
        match a {
            Err(why) => Outcome {
                refusal: u16::from(why),
                outcome: 0,
                frames: 0,
                deliveries: 0,
                deaf: 0,
            },
            Ok(Answer::Founded) => happened(1, frames::SHORTEST_TOKEN as u16, 0, 0),
            Ok(Answer::Posted) => happened(2, 0, 0, 0),
            Ok(Answer::Kept(n)) => happened(3, 0, n, 0),
            Ok(Answer::Had(n)) => happened(4, 0, n, 0),
            Ok(Answer::Ahead(n)) => happened(5, 0, n, 0),
            Ok(
                Answer::Accepted {
                    frames,
                    deliveries,
                    deaf,
                },
            ) => happened(6, frames, deliveries, deaf),
            Ok(Answer::Resent(n)) => happened(7, n as u16, 0, 0),
        }
    }
}
