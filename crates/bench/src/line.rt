// A line of the script, byte by byte. Numbers, contents and frames have any length; nothing keeps a
// whole line.
use crate::command::{Command, Verb};
use crate::fault::Fault;
use crate::number;
use arrayvec::ArrayVec;

// One id more than a ring has members are kept: enough to see that a list is too long.
const MOST_IDS: usize = record::MOST_MEMBERS + 1;

pub const IDS_ROOM: usize = 2 * MOST_IDS;

// Room for one byte more than the longest frame, so that what is cut off there is too long for any
// use.
const KEPT_ROOM: usize = 65538;

// What the next byte belongs to.
#[derive(Clone, Copy, Debug, PartialEq, Eq)]
enum Part {
    Letter,
    Gap(Verb),
    Number(Verb),
    Content,
    Frame,
}

#[derive(Drop)]
pub struct Line {
    part: Result<Part, Fault>,
    // The number that is being read, from its first digit on.
    value: Option<u32>,
    // The first two numbers: ring number, place or count, then the service.
    first: Option<u32>,
    second: Option<u32>,
    // The numbers of `r` after the first.
    ids: ArrayVec<u8, IDS_ROOM>,
    // The first digit of a pair.
    high: Option<u8>,
    // A content, or a frame.
    kept: ArrayVec<u8, KEPT_ROOM>,
}

impl Line {
    pub fn new() -> Line {
        Line {
            part: Ok(Part::Letter),
            value: None,
            first: None,
            second: None,
            ids: ArrayVec::new(),
            high: None,
            kept: ArrayVec::new(),
        }
    }

    // A new line begins.
    pub fn clear(&mut self) {
        self.part = Ok(Part::Letter);
        self.value = None;
        self.first = None;
        self.second = None;
        self.ids.clear();
        self.high = None;
        self.kept.clear();
    }

    // One byte more.
    pub fn take(&mut self, b: u8) {
        if let Ok(part) = self.part {
            self.part = self.after(part, b);
        }
    }

    // The line ends, perhaps within a number.
    pub fn end(&mut self) {
        if let Ok(Part::Number(verb)) = self.part {
            if let Err(fault) = self.end_number(verb) {
                self.part = Err(fault);
            }
        }
    }

    // What comes after this byte.
    fn after(&mut self, part: Part, b: u8) -> Result<Part, Fault> {
        match part {
            Part::Letter => Ok(Part::Gap(Verb::try_from(b)?)),
            Part::Gap(verb) if b == b' ' => Ok(Part::Number(verb)),
            Part::Gap(_) => Err(Fault::Letter),
            Part::Number(verb) => self.take_digit(verb, b),
            Part::Content => Ok(self.take_content(b)),
            Part::Frame => self.take_hexadecimal(b),
        }
    }

    fn take_digit(&mut self, verb: Verb, b: u8) -> Result<Part, Fault> {
        if b == b' ' {
            self.end_number(verb)?;
            return self.after_number(verb);
        }
        if !b.is_ascii_digit() {
            return Err(Fault::NoNumber);
        }
        let value = self.value.unwrap_or(0);
        self.value = Some(number::more_decimal(value, b - b'0'));
        Ok(Part::Number(verb))
    }

    // A number is read whole: where it goes.
    fn end_number(&mut self, verb: Verb) -> Result<(), Fault> {
        let value = self.value.take().ok_or(Fault::NoNumber)?;
        if self.first.is_none() {
            self.first = Some(value);
        } else if verb == Verb::Found {
            return self.keep_id(value);
        } else {
            self.second = Some(value);
        }
        Ok(())
    }

    fn keep_id(&mut self, value: u32) -> Result<(), Fault> {
        match u16::try_from(value) {
            Ok(id) => {
                let _ = self.ids.try_extend_from_slice(&id.to_le_bytes());
                Ok(())
            }
            Err(_) => Err(Fault::LargeId),
        }
    }

    // What follows a number and a space.
    fn after_number(&self, verb: Verb) -> Result<Part, Fault> {
        match verb {
            Verb::Found => Ok(Part::Number(verb)),
            Verb::Post if self.second.is_none() => Ok(Part::Number(verb)),
            Verb::Post => Ok(Part::Content),
            Verb::Arrive => Ok(Part::Frame),
            Verb::Turn => Err(Fault::MoreFields),
            Verb::Write => Err(Fault::MoreFields),
        }
    }

    fn take_content(&mut self, b: u8) -> Part {
        let _ = self.kept.try_push(b);
        Part::Content
    }

    fn take_hexadecimal(&mut self, b: u8) -> Result<Part, Fault> {
        let low = number::hex_value(b).ok_or(Fault::NotHexadecimal)?;
        match self.high.take() {
            None => self.high = Some(low),
            Some(high) => {
                let _ = self.kept.try_push(high << 4 | low);
            }
        }
        Ok(Part::Frame)
    }

    // What the line asks for, once it has ended.
    pub fn command(&self) -> Result<Command<'_>, Fault> {
        match self.part? {
            Part::Letter => Ok(Command::Nothing),
            Part::Gap(Verb::Turn) => Ok(Command::Turn),
            Part::Gap(_) => Err(Fault::NoNumber),
            Part::Number(verb) => self.numbered(verb),
            Part::Content => self.numbered(Verb::Post),
            Part::Frame if self.high.is_some() => Err(Fault::NotHexadecimal),
            Part::Frame => self.numbered(Verb::Arrive),
        }
    }

    // The numbers are read: are there enough of them?
    fn numbered(&self, verb: Verb) -> Result<Command<'_>, Fault> {
        let first = self.first.ok_or(Fault::NoNumber)?;
        match verb {
            Verb::Found => Ok(Command::Found {
                number: first,
                ids: self.ids.as_slice(),
            }),
            Verb::Post => {
                let second = self.second.ok_or(Fault::NoNumber)?;
                Ok(Command::Post {
                    place: first,
                    service: number::within_u16(second),
                    content: self.kept.as_slice(),
                })
            }
            Verb::Turn => Ok(Command::TurnWithout(first)),
            Verb::Arrive => Ok(Command::Arrive {
                place: first,
                frame: self.kept.as_slice(),
            }),
            Verb::Write => Ok(Command::Write(number::within_u16(first))),
        }
    }
}
