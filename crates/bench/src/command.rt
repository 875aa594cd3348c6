// What a whole line asks for.
use crate::fault::Fault;

// A line's first letter.
#[derive(Clone, Copy, Debug, PartialEq, Eq)]
pub enum Verb {
    Found,
    Post,
    Turn,
    Arrive,
    Write,
}

impl TryFrom<u8> for Verb {
    type Error = Fault;

    fn try_from(letter: u8) -> Result<Verb, Fault> {
        match letter {
            b'r' => Ok(Verb::Found),
            b'p' => Ok(Verb::Post),
            b't' => Ok(Verb::Turn),
            b'f' => Ok(Verb::Arrive),
            b'w' => Ok(Verb::Write),
            _ => Err(Fault::Letter),
        }
    }
}

// Ids are two bytes each.
#[derive(Clone, Copy)]
pub enum Command<'a> {
    Nothing,
    Found {
        number: u32,
        ids: &'a [u8],
    },
    Post {
        place: u32,
        service: u16,
        content: &'a [u8],
    },
    Turn,
    TurnWithout(u32),
    Arrive {
        place: u32,
        frame: &'a [u8],
    },
    Write(u16),
}
