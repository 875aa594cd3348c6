// The line `w`: how long a token with so many requests is.
use crate::number;
use crate::output::Printer;
use frames::{Header, MessageNumber, RingNumber, Token, TokenNumber};

// The numbers from 1 on, as many as are asked for and have room.
fn requests(count: u16) -> [MessageNumber; frames::MOST_REQUESTS] {
    let mut numbers = [MessageNumber(0); frames::MOST_REQUESTS];
    for i in 0..frames::MOST_REQUESTS.min(count as usize) {
        numbers[i] = MessageNumber(i as u32 + 1);
    }
    numbers
}

// A token that asks for messages 1 to `count`.
fn asking(count: u16) -> Token {
    Token {
        header: Header {
            ring: RingNumber(1),
            representative: 1,
        },
        addressee: 1,
        number: TokenNumber(1),
        highest: MessageNumber(count as u32),
        aru: MessageNumber(0),
        blocker: (count != 0).then_some(1),
        round: 0,
        backlog: 0,
        count,
        requests: requests(count),
    }
}

pub fn write<R: Print + Eprint>(count: u16, out: &mut Printer<R>) {
    let mut frame = [0u8; frames::LONGEST_TOKEN];
    match frames::write_token(asking(count), &mut frame) {
        Ok(n) => out.number(number::within_u32(n)),
        Err(why) => out.refusal(u16::from(why)),
    }
}
