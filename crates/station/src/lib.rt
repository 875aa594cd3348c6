// One station of a ring: founding, posting, arrival and resending, each as a step by value and as a call on a
// lent record. Every public call takes any values and any bytes of any length.
#![tactic(auto)]

mod answer;
mod arriving;
mod calls;
mod done;
mod founding;
mod posting;
mod refusal;
mod resending;

pub use answer::{Answer, Outcome};
pub use arriving::{arrive_in, arrive_step};
pub use calls::{arrive, found, post, resend};
pub use done::Done;
pub use founding::{found_ids_in, found_in, found_step};
pub use posting::{post_in, post_step};
pub use refusal::Refusal;
pub use resending::{resend_in, resend_step};
