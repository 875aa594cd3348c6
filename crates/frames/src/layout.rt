// Where each field of a frame stands, in bytes from the frame's first. Nothing outside this crate
// knows a place.
ghost use Rattle.std.specs.Prelude.{◌≡◌};
ghost use Rattle.frames.specs.Layout.{token_size};

pub const LENGTH_AT: usize = 0;

pub const LENGTH_SIZE: usize = 2;

pub const KIND_AT: usize = 2;

pub const RING_AT: usize = 4;

pub const REPRESENTATIVE_AT: usize = 8;

pub const HEADER_SIZE: usize = 10;

// Kind 1, message.
pub const MESSAGE_KIND: u16 = 1;

pub const SENDER_AT: usize = 10;

pub const MESSAGE_NUMBER_AT: usize = 12;

pub const CONFIGURATION_AT: usize = 16;

pub const SERVICE_AT: usize = 20;

pub const CONTENT_AT: usize = 22;

pub const CONFIGURATION: u32 = 0;

pub const MOST_SERVICE: u16 = 1;

pub const MOST_CONTENT: usize = 64;

// A message without content, and one with all.
pub const SHORTEST_MESSAGE: usize = CONTENT_AT;

pub const LONGEST_MESSAGE: usize = CONTENT_AT + MOST_CONTENT;

// Kind 2, token.
pub const TOKEN_KIND: u16 = 2;

pub const ADDRESSEE_AT: usize = 10;

pub const TOKEN_NUMBER_AT: usize = 12;

pub const HIGHEST_AT: usize = 16;

pub const ARU_AT: usize = 20;

pub const BLOCKER_AT: usize = 24;

pub const ROUND_AT: usize = 26;

pub const BACKLOG_AT: usize = 28;

pub const COUNT_AT: usize = 30;

pub const REQUESTS_AT: usize = 32;

pub const MOST_ROUND: u16 = 128;

pub const MOST_BACKLOG: u16 = 128;

pub const MOST_REQUESTS: usize = 16;

// A token without requests, as a ring's first, and one with all.
pub const SHORTEST_TOKEN: usize = REQUESTS_AT;

pub const LONGEST_TOKEN: usize = REQUESTS_AT + 4 * MOST_REQUESTS;

// The size of a token with n requests.
pub fn token_size(n: u16) -> usize
    ensures { result ≡ token_size n }
{
    REQUESTS_AT + 4 * (n as usize)
}
