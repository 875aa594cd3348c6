// A ring of 2 to 8 stations. What is proved of it stands in specs/: demand 3, that delivery lists are the
// readings in order, that records stay whole, that the newest token is never refused, and all of it for
// records as bytes. For programs: a ring's stations by place in lent bytes.
#![tactic(auto)]

mod broadcasts;
mod founding;
mod members;
mod stations;

ghost use Rattle.std.specs.Prelude.{◌≡◌, true};
ghost use Rattle.ring.specs.Run.{ring_foundable};
ghost use Rattle.ring.specs.Promise.{Promised};

pub use broadcasts::{Frames, first_size, hear_all, newest_token};
pub use founding::found_ring;
use frames::RingNumber;
pub use members::addressee_place;
pub use stations::{arrive_at, post_at};

// Can a ring be founded on this list and ring number? Where it can, every list of calls that can be made
// meets demand 3, delivery lists are readings 1, 2, 3 and so on, the newest token is never refused, and
// records stay whole: over structs, and over bytes in whatever buffers the members founded.
// Ruled out: yes to a ring of one; no to a list that founding takes.
pub fn foundable(members: &[u16], ring: RingNumber) -> bool
    ensures { (result ≡ ring_foundable members.now ring.0)
        × (result ≡ true → Promised members.now ring.0) }
{
    record::members_counted(members) & record::ids_follow(members) & frames::is_number(ring.0)
}
