// A visit after steps 1 to 3: what was sent is known. Steps 4 to 8 read it.
ghost use Rattle.std.specs.Prelude.{◌≡◌};
ghost use Rattle.visit.specs.inner.Steps.{sent_of, visit_of};

use crate::broadcasting::Sent;
use crate::token_visit::TokenVisit;

#[derive(Clone, Copy)]
pub struct SentVisit<'a> {
    pub visit: TokenVisit<'a>,
    pub sent: &'a Sent,
    ghost is: { sent.now ≡ sent_of (visit_of visit) },
}
