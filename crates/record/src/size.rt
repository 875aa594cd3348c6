// How much a station keeps.

// Members of a ring.
pub const LEAST_MEMBERS: usize = 2;

pub const MOST_MEMBERS: usize = 8;

// Messages held at once.
pub const MOST_HELD: usize = 32;

// Posts waiting at once.
pub const MOST_POSTS: usize = 16;

// Broadcasts of one visit.
pub const MOST_BROADCASTS: usize = 16;

// The contents of all held messages, and of all waiting posts, each in one run of bytes.
pub const HELD_CONTENTS: usize = MOST_HELD * frames::MOST_CONTENT;

pub const POST_CONTENTS: usize = MOST_POSTS * frames::MOST_CONTENT;
