// The reader.
ghost use Rattle.std.specs.Prelude.{◌≡◌};
ghost use Rattle.frames.specs.Read.{read_of, read_number, read_message, read_token, answer_number};

use crate::message::Message;
use crate::refusal::Refusal;
use crate::token::Token;
use crate::{header, layout, message, token};
use words::Word;

#[derive(Clone, Copy, Debug, PartialEq, Eq, Hash)]
pub enum Frame {
    // The content is the part of the frame that `content` gives.
    Message(Message),
    Token(Token),
}

#[tactic(auto, unfolding(crate::specs::Read::read_message))]
fn read_message(frame: &[u8]) -> Result<Frame, Refusal>
    ensures { result ≡ read_message frame.now }
{
    if frame.len() < layout::CONTENT_AT {
        return Err(Refusal::Malformed);
    }
    if u32::get(frame, layout::CONFIGURATION_AT) != layout::CONFIGURATION {
        return Err(Refusal::Malformed);
    }
    let m = message::message_of(frame);
    if !message::message_follows(m, message::content(frame)) {
        return Err(Refusal::Malformed);
    }
    Ok(Frame::Message(m))
}

#[tactic(auto, unfolding(crate::specs::Read::read_token))]
fn read_token(frame: &[u8]) -> Result<Frame, Refusal>
    ensures { result ≡ read_token frame.now }
{
    if frame.len() < layout::REQUESTS_AT {
        return Err(Refusal::Malformed);
    }
    let n = u16::get(frame, layout::COUNT_AT);
    if layout::MOST_REQUESTS < n as usize {
        return Err(Refusal::Malformed);
    }
    if frame.len() != layout::token_size(n) {
        return Err(Refusal::Malformed);
    }
    let t = token::token_of(frame, n);
    if !token::token_follows(t) {
        return Err(Refusal::Malformed);
    }
    Ok(Frame::Token(t))
}

// Reads any bytes of any length: 10, 11 or 12, the first that fails, or the values. Ruled out: a
// token taken for a message; 12 where the length is wrong already.
#[tactic(auto, unfolding(crate::specs::Read::read_of, crate::specs::Read::read_number, crate::specs::Read::read_message, crate::specs::Read::read_token, crate::specs::Header::framed_size))]
pub fn read(frame: &[u8]) -> Result<Frame, Refusal>
    ensures value { result ≡ read_of frame.now }
    ensures answer_value { answer_number result ≡ read_number frame.now }
{
    if frame.len() < layout::HEADER_SIZE {
        return Err(Refusal::WrongLength);
    }
    if header::framed_size(frame) != Some(frame.len()) {
        return Err(Refusal::WrongLength);
    }
    match u16::get(frame, layout::KIND_AT) {
        layout::MESSAGE_KIND => read_message(frame),
        layout::TOKEN_KIND => read_token(frame),
        _ => Err(Refusal::OtherKind),
    }
}
