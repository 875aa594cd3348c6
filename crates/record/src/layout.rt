// Where each field of the record stands, counted from the first byte of the part that it belongs to: behind the
// one before it, by that one's size.
use crate::size;

// The held messages.
pub const SENDERS_AT: usize = 0;

pub const HELD_SERVICES_AT: usize = SENDERS_AT + 2 * size::MOST_HELD;

pub const HELD_LENGTHS_AT: usize = HELD_SERVICES_AT + 2 * size::MOST_HELD;

const HELD_CONTENTS_AT: usize = HELD_LENGTHS_AT + size::MOST_HELD;

const HELD_SIZE: usize = HELD_CONTENTS_AT + size::HELD_CONTENTS;

// The log, its held messages last.
pub const LOG_RING_AT: usize = 0;

pub const MEMBER_COUNT_AT: usize = LOG_RING_AT + 4;

pub const MEMBERS_AT: usize = MEMBER_COUNT_AT + 1;

pub const LEVEL_AT: usize = MEMBERS_AT + 2 * size::MOST_MEMBERS;

pub const SAFE_AT: usize = LEVEL_AT + 4;

pub const DELIVERED_AT: usize = SAFE_AT + 4;

pub const HELD_AT: usize = DELIVERED_AT + 4;

const LOG_SIZE: usize = HELD_AT + HELD_SIZE;

// The turn.
pub const TURN_ARU_AT: usize = 0;

pub const EARLIER_AT: usize = TURN_ARU_AT + 4;

pub const TURN_NUMBER_AT: usize = EARLIER_AT + 4;

pub const BROADCAST_AT: usize = TURN_NUMBER_AT + 4;

pub const STALL_AT: usize = BROADCAST_AT + 1;

pub const WAITED_AT: usize = STALL_AT + 1;

pub const TOKEN_SIZE_AT: usize = WAITED_AT + 1;

pub const TOKEN_AT: usize = TOKEN_SIZE_AT + 1;

const TURN_SIZE: usize = TOKEN_AT + frames::LONGEST_TOKEN;

// The waiting posts.
pub const POST_COUNT_AT: usize = 0;

pub const POST_SERVICES_AT: usize = POST_COUNT_AT + 1;

pub const POST_LENGTHS_AT: usize = POST_SERVICES_AT + 2 * size::MOST_POSTS;

const POST_CONTENTS_AT: usize = POST_LENGTHS_AT + size::MOST_POSTS;

const POSTS_SIZE: usize = POST_CONTENTS_AT + size::POST_CONTENTS;

// The record.
pub const OWN_AT: usize = 0;

// What the panel reads; it never moves again.
pub const PANEL_AT: usize = OWN_AT + 2;

pub const LOG_AT: usize = PANEL_AT + 1;

pub const TURN_AT: usize = LOG_AT + LOG_SIZE;

pub const POSTS_AT: usize = TURN_AT + TURN_SIZE;

pub const RECORD_SIZE: usize = POSTS_AT + POSTS_SIZE;

// The contents, counted from the record's first byte: of the held messages, and of the waiting posts.
pub const CONTENTS_AT: usize = LOG_AT + HELD_AT + HELD_CONTENTS_AT;

pub const CONTENTS_END: usize = CONTENTS_AT + size::HELD_CONTENTS;

pub const WAITING_AT: usize = POSTS_AT + POST_CONTENTS_AT;
