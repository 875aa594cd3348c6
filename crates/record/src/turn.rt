// What a station keeps from one visit of the token to the next.
use frames::{MessageNumber, TokenNumber};

// The small numbers stand last: no array begins at an odd byte.
#[derive(Clone, Copy)]
pub struct Turn {
    // The aru of the token forwarded last, and of the one before.
    pub aru: MessageNumber,
    pub earlier: MessageNumber,
    // The number of the token forwarded last. The paper's my_token_seq.
    pub number: TokenNumber,
    // The remembered token's bytes are the first `size`; the others are 0. It may be resent where
    // `size` is not 0.
    pub token: [u8; frames::LONGEST_TOKEN],
    pub size: u8,
    // How many messages it broadcast at its last visit, repeats included.
    pub broadcast: u8,
    // The paper's my_aru_count.
    pub stall: u8,
    // How many posts waited here when it forwarded the token: its own part of the token's backlog.
    pub waited: u8,
}
