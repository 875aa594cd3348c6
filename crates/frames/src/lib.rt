// Totem frames: the reader and the writer. A logger can use this crate alone. Every public function
// takes any values and any bytes of any length; `read`, `write_message` and `write_token` answer what
// is wrong as a `Refusal`, which has its number.
#![tactic(auto)]

mod header;
mod layout;
mod message;
mod number;
mod reader;
mod refusal;
mod token;
mod writer;

pub use header::{Header, framed_size};
pub use layout::{
    LONGEST_MESSAGE, LONGEST_TOKEN, MOST_BACKLOG, MOST_CONTENT, MOST_REQUESTS, MOST_ROUND,
    MOST_SERVICE, SHORTEST_MESSAGE, SHORTEST_TOKEN, token_size,
};
pub use message::{Message, content, message_follows};
pub use number::{MOST_ID, MOST_NUMBER, MessageNumber, RingNumber, TokenNumber, is_id, is_number};
pub use reader::{Frame, read};
pub use refusal::Refusal;
pub use token::{Blocker, Token, numbered, numbers_in, token_follows};
pub use writer::{put_message, put_token, write_message, write_token};
