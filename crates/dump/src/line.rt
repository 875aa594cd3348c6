// The line of one frame, in the paper's names where it has one: a message, a token, or the number of
// the question that refuses it.
#![tactic(auto, using(text::proofs::PutLaws::put_append), unfolding(text::specs::Text::put))]

ghost use Rattle.std.specs.Prelude.{◌≡◌, ◌+◌, ◌≤◌, length};
ghost use Rattle.text.specs.Text.{put, Whole};
ghost use Rattle.dump.specs.Line.{field, header_text, message_fields, message_line, blocker_text, comma_separated};
ghost use Rattle.dump.specs.Line.{requests_text, token_fields, token_line, unread_line, line_of, longest_line};

use frames::{Blocker, Frame, Header, Message, Token};
use text::Output;

fn put_field(out: &mut Output, name: &[u8], value: u32)
    ensures { out.new ≡ put (field name.now value) out.old }
{
    out.put_bytes(name);
    out.put_decimal(value);
}

fn put_header(out: &mut Output, kind: &[u8], h: Header)
    ensures { out.new ≡ put (header_text kind.now h) out.old }
{
    out.put_bytes(kind);
    put_field(out, b" ring=", h.ring.0);
    put_field(out, b" rep=", h.representative as u32);
}

// The configuration of a message that reads is 0.
fn put_message_fields(out: &mut Output, m: Message)
    ensures { out.new ≡ put (message_fields m) out.old }
{
    put_header(out, b"message", m.header);
    put_field(out, b" sender_id=", m.sender as u32);
    put_field(out, b" seq=", m.number.0);
    put_field(out, b" conf_id=", 0);
    put_field(out, b" service=", m.service as u32);
}

fn put_message(out: &mut Output, m: Message, content: &[u8])
    ensures { out.new ≡ put (message_line m content.now) out.old }
{
    put_message_fields(out, m);
    out.put_bytes(b" contents=\"");
    out.put_escaped(content);
    out.put_bytes(b"\"\n");
}

fn put_blocker(out: &mut Output, b: Blocker)
    ensures { out.new ≡ put (blocker_text b) out.old }
{
    match b {
        None => out.put_bytes(b" aru_id=nobody"),
        Some(id) => put_field(out, b" aru_id=", id as u32),
    }
}

// A comma between each two.
#[tactic(auto, using(text::proofs::PutLaws::put_append, text::proofs::PutLaws::each_goes), unfolding(text::specs::Text::put))]
fn put_numbers(out: &mut Output, numbers: &[u32])
    ensures { out.new ≡ put (comma_separated numbers.now) out.old }
{
    if let Some((first, rest)) = numbers.split_first() {
        out.put_decimal(*first);
        for &number in rest {
            put_field(out, b",", number);
        }
    }
}

#[tactic(auto, using(text::proofs::PutLaws::put_append, words::proofs::TakeLaws::first_taken), unfolding(text::specs::Text::put))]
fn put_requests(out: &mut Output, requests: &[u32; frames::MOST_REQUESTS], count: u16)
    ensures { out.new ≡ put (requests_text requests.now count) out.old }
{
    out.put_bytes(b" rtr=[");
    put_numbers(out, requests.get(..count as usize).unwrap_or(requests));
    out.put_bytes(b"]");
}

fn put_token_fields(out: &mut Output, t: Token)
    ensures { out.new ≡ put (token_fields t) out.old }
{
    put_header(out, b"token", t.header);
    put_field(out, b" addressee=", t.addressee as u32);
    put_field(out, b" token_seq=", t.number.0);
    put_field(out, b" seq=", t.highest.0);
    put_field(out, b" aru=", t.aru.0);
}

fn put_token(out: &mut Output, t: Token)
    ensures { out.new ≡ put (token_line t) out.old }
{
    let requests = frames::numbers_in(t.requests);
    put_token_fields(out, t);
    put_blocker(out, t.blocker);
    put_field(out, b" fcc=", t.round as u32);
    put_field(out, b" backlog=", t.backlog as u32);
    put_requests(out, &requests, t.count);
    out.put_bytes(b"\n");
}

fn put_refusal(out: &mut Output, number: u16)
    ensures { out.new ≡ put (unread_line number) out.old }
{
    put_field(out, b"no ", number as u32);
    out.put_bytes(b"\n");
}

// No line is longer.
pub const LONGEST_LINE: usize = 512;

// The line of one frame, whole. Ruled out: two fields swapped; a line cut short.
pub fn put_line(out: &mut Output, frame: &[u8])
    requires { out.old.at + longest_line ≤ length out.old.out }
    ensures { Whole out.old (line_of frame.now) out.new }
{
    match frames::read(frame) {
        Err(why) => put_refusal(out, u16::from(why)),
        Ok(Frame::Message(m)) => put_message(out, m, frames::content(frame)),
        Ok(Frame::Token(t)) => put_token(out, t),
    }
}
