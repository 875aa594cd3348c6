// The writers.
ghost use Rattle.std.specs.Prelude.{◌≡◌, ◌≤◌, length};
ghost use Rattle.std.proofs.lemmas.List.Edits.{sets};
ghost use Rattle.frames.specs.Layout.{content_at, round_at, requests_at, most_requests};
ghost use Rattle.frames.specs.Message.{message_fixed};
ghost use Rattle.frames.specs.Token.{token_counts, token_fixed};
ghost use Rattle.frames.specs.Write.{write_outcome_of, message_written, token_written, message_put, token_put};

use crate::message::Message;
use crate::refusal::Refusal;
use crate::token::Token;
use crate::{header, layout, message, token};
use words::Word;

// The bytes before the content, of a frame of `size` bytes in all.
#[tactic(auto, using(crate::proofs::PutLaws::message_stored))]
fn put_message_fixed(out: &mut [u8], m: Message, size: usize)
    requires { (content_at ≤ length out.old) × (content_at ≤ size) }
    ensures { out.new ≡ sets out.old 0 (message_fixed m size) }
{
    header::put_header(out, size, layout::MESSAGE_KIND, m.header);
    u16::put(out, layout::SENDER_AT, m.sender);
    u32::put(out, layout::MESSAGE_NUMBER_AT, m.number.0);
    u32::put(out, layout::CONFIGURATION_AT, layout::CONFIGURATION);
    u16::put(out, layout::SERVICE_AT, m.service);
}

// Puts a message's frame to the front of `out`, for one that is known to follow the layout: only the room is
// asked, and where there is none `out` is left alone. Ruled out: a byte past the frame changed; a content that
// starts a byte late.
pub fn put_message(m: Message, content: &[u8], out: &mut [u8])
    ensures { out.new ≡ message_put m content.now out.old }
{
    let size = layout::CONTENT_AT + content.len();
    if out.len() < size {
        return;
    }
    put_message_fixed(out, m, size);
    words::put_many(out, layout::CONTENT_AT, content);
}

// Writes a message frame to the front of `out`: its size in bytes, or why nothing was written. Ruled out: a malformed one written; a buffer one byte short
// taken.
pub fn write_message(m: Message, content: &[u8], out: &mut [u8]) -> Result<usize, Refusal>
    ensures result_value { write_outcome_of result ≡ (message_written m content.now out.old).outcome }
    ensures out_after { out.new ≡ (message_written m content.now out.old).out }
{
    if !message::message_follows(m, content) {
        return Err(Refusal::Malformed);
    }
    let size = layout::CONTENT_AT + content.len();
    if out.len() < size {
        return Err(Refusal::NoRoom);
    }
    put_message(m, content, out);
    Ok(size)
}

// The round count, the backlog and the number of requests.
#[tactic(auto, using(crate::proofs::PutLaws::counts_stored))]
fn put_counts(out: &mut [u8], t: Token)
    requires { requests_at ≤ length out.old }
    ensures { out.new ≡ sets out.old round_at (token_counts t) }
{
    u16::put(out, layout::ROUND_AT, t.round);
    u16::put(out, layout::BACKLOG_AT, t.backlog);
    u16::put(out, layout::COUNT_AT, t.count);
}

// The bytes before the requests.
#[tactic(auto, using(crate::proofs::PutLaws::token_stored))]
fn put_token_fixed(out: &mut [u8], t: Token)
    requires { requests_at ≤ length out.old }
    ensures { out.new ≡ sets out.old 0 (token_fixed t) }
{
    header::put_header(
        out,
        layout::token_size(t.count),
        layout::TOKEN_KIND,
        t.header,
    );
    u16::put(out, layout::ADDRESSEE_AT, t.addressee);
    u32::put(out, layout::TOKEN_NUMBER_AT, t.number.0);
    u32::put(out, layout::HIGHEST_AT, t.highest.0);
    u32::put(out, layout::ARU_AT, t.aru.0);
    u16::put(out, layout::BLOCKER_AT, token::blocker_id(t.blocker));
    put_counts(out, t);
}

// Puts a token's frame to the front of `out`, for one that is known to follow the layout: only the count and the
// room are asked, and where one is wrong `out` is left alone. Ruled out: requests left out; a byte past the frame
// changed.
pub fn put_token(t: Token, out: &mut [u8])
    ensures { out.new ≡ token_put t out.old }
{
    let numbers = token::numbers_in(t.requests);
    let Some(requests) = numbers.get(..t.count as usize) else {
        return;
    };
    if out.len() < layout::token_size(t.count) {
        return;
    }
    put_token_fixed(out, t);
    words::put_run(out, layout::REQUESTS_AT, requests);
}

// Writes a token frame to the front of `out`: its size in bytes, or why nothing was written. Ruled out: a malformed one written; a refusal that has written
// the header already.
pub fn write_token(t: Token, out: &mut [u8]) -> Result<usize, Refusal>
    ensures result_value { write_outcome_of result ≡ (token_written t out.old).outcome }
    ensures out_after { out.new ≡ (token_written t out.old).out }
{
    if !token::token_follows(t) {
        return Err(Refusal::Malformed);
    }
    let size = layout::token_size(t.count);
    if out.len() < size {
        return Err(Refusal::NoRoom);
    }
    put_token(t, out);
    Ok(size)
}
