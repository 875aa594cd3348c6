// The station record: what it holds, when it is whole, and its bytes. Nothing here knows a call.
#![tactic(auto)]

mod bytes;
mod fresh;
mod head;
mod held;
mod layout;
mod lent;
mod log;
mod log_bytes;
mod members;
mod panel;
mod places;
mod posts;
mod posts_bytes;
mod range;
mod ring;
mod size;
mod turn;
mod turn_bytes;
mod unused;
mod whole;

// Structs and sizes, and functions of any values and bytes.
pub use head::{Head, LogHead, PostsHead};
pub use layout::RECORD_SIZE;
pub use lent::{head_in, is_whole_in};
pub use log::{Held, Log};
pub use members::{ids_follow, is_member, members_counted, representative_of};
pub use posts::Posts;
pub use ring::{this_ring, token_members};
pub use size::{MOST_BROADCASTS, MOST_HELD, MOST_MEMBERS, MOST_POSTS};
pub use turn::Turn;
pub use whole::is_whole;

// Only for the crates above: each of these has a `requires`, which they show where they call it.
pub use bytes::{decode, encode, post_count, put_fresh, put_head, put_post, turn_in};
pub use held::{is_held, numbers_before};
pub use lent::{contents_in, hold_content_in, is_whole_at, let_go_in, store_in, take_oldest_in};
pub use places::every_place;

#[derive(Clone, Copy)]
pub struct Record {
    pub own: u16,
    // How many messages are held and not delivered: what the panel shows.
    pub panel: u8,
    pub log: Log,
    pub turn: Turn,
    pub posts: Posts,
}
