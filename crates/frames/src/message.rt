// Kind 1, message: its values, the content apart.
ghost use Rattle.std.specs.Prelude.{◌≡◌, ◌≤◌, length};
ghost use Rattle.frames.specs.Message.{message_of, content_of, message_follows};
ghost use Rattle.frames.specs.Layout.{content_at};

use crate::header::Header;
use crate::number::MessageNumber;
use crate::{header, layout, number};
use words::Word;

#[derive(Clone, Copy, Debug, PartialEq, Eq, Hash)]
pub struct Message {
    pub header: Header,
    pub sender: u16,
    pub number: MessageNumber,
    // 0 agreed, 1 safe. A number and no enum: one out of range is read before `message_follows` refuses it.
    pub service: u16,
}

#[tactic(auto, unfolding(crate::specs::Message::message_of))]
pub fn message_of(frame: &[u8]) -> Message
    requires { content_at ≤ length frame.now }
    ensures { result ≡ message_of frame.now }
{
    Message {
        header: header::header_of(frame),
        sender: u16::get(frame, layout::SENDER_AT),
        number: MessageNumber(u32::get(frame, layout::MESSAGE_NUMBER_AT)),
        service: u16::get(frame, layout::SERVICE_AT),
    }
}

// The content of a message frame: the part of its bytes from the content's place to the end, and
// nothing of a frame that has no such place. Ruled out: a part that starts a byte late; a short
// frame's own bytes.
pub fn content(frame: &[u8]) -> &[u8]
    ensures { result.now ≡ content_of frame.now }
{
    frame.get(layout::CONTENT_AT..).unwrap_or_default()
}

// Question 12 of a message's values. Ruled out: id 0 taken; content of 65 bytes taken.
#[tactic(auto, unfolding(crate::specs::Message::message_follows))]
pub fn message_follows(m: Message, content: &[u8]) -> bool
    ensures { result ≡ message_follows m content.now }
{
    header::header_follows(m.header)
        & number::is_id(m.sender)
        & number::is_number(m.number.0)
        & (m.service <= layout::MOST_SERVICE)
        & (content.len() <= layout::MOST_CONTENT)
}
