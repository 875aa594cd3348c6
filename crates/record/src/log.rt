// What a station has of one ring's messages.
use crate::size;
use frames::{MessageNumber, RingNumber};

// A message stands at the place that its number fixes: the number modulo MOST_HELD. A place is in
// use where its sender is not 0. Contents stand 64 bytes apart, zero past their lengths. Arrays side by side, as the
// record's bytes are, with no heap.
#[derive(Clone, Copy)]
pub struct Held {
    pub senders: [u16; size::MOST_HELD],
    pub services: [u16; size::MOST_HELD],
    pub lengths: [u8; size::MOST_HELD],
    pub contents: [u8; size::HELD_CONTENTS],
}

#[derive(Clone, Copy)]
pub struct Log {
    pub ring: RingNumber,
    // The members are the first `count` places, in circulation order; the others are 0.
    pub count: u8,
    pub members: [u16; size::MOST_MEMBERS],
    // Everything 1 to it is received. The paper's my_aru.
    pub level: MessageNumber,
    // Everything 1 to it is received by all.
    pub safe: MessageNumber,
    // Everything 1 to it is delivered here.
    pub delivered: MessageNumber,
    pub held: Held,
}
