// What the paper's Figure 3 does with a message and with a token, on a record in lent bytes. Nothing here refuses:
// the crate above has asked the questions, and each function has a `requires` that says which.
#![tactic(auto)]

mod broadcasting;
mod circulation;
mod covering;
mod delivering;
mod flow;
mod forwarding;
mod hearing;
mod held_frames;
mod held_log;
mod level;
mod marks;
mod new_messages;
mod remembered;
mod request_list;
mod requests;
mod room;
mod sent_visit;
mod token_visit;
mod visiting;

pub use covering::covers_held;
pub use hearing::{Heard, Hearing, hear};
pub use remembered::put_remembered;
pub use room::{MOST_DELIVERIES, MOST_FRAMES};
pub use visiting::{Visited, accept};
