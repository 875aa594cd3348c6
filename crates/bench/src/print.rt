// The lines that the bench prints.
#![tactic(auto, unfolding(text::specs::Text::put))]

ghost use Rattle.std.specs.Prelude.{◌≡◌, ◌++◌};
ghost use Rattle.text.specs.Text.{put, piece, decimal};
ghost use Rattle.bench.specs.Print.{spaced, delivery_head, delivery_line, number_line, refusal_line};

use crate::output::Printer;
use frames::{Frame, Message};
use text::Output;

// A number, and what ends it.
fn put_ended(out: &mut Output, n: u32, end: &[u8])
    ensures { out.new ≡ put (decimal n ++ piece end.now) out.old }
{
    out.put_decimal(n);
    out.put_bytes(end);
}

fn put_spaced(out: &mut Output, n: u32)
    ensures { out.new ≡ put (spaced n) out.old }
{
    put_ended(out, n, b" ");
}

// Place, message number, sender, service; a space after each.
fn put_head(out: &mut Output, place: u32, m: Message)
    ensures { out.new ≡ put (delivery_head place m) out.old }
{
    put_spaced(out, place);
    put_spaced(out, m.number.0);
    put_spaced(out, m.sender as u32);
    put_spaced(out, m.service as u32);
}

fn put_delivery(out: &mut Output, place: u32, m: Message, content: &[u8])
    ensures { out.new ≡ put (delivery_line place m content.now) out.old }
{
    put_head(out, place, m);
    out.put_bytes(content);
    out.put_bytes(b"\n");
}

fn put_number(out: &mut Output, n: u32)
    ensures { out.new ≡ put (number_line n) out.old }
{
    put_ended(out, n, b"\n");
}

fn put_refusal(out: &mut Output, number: u16)
    ensures { out.new ≡ put (refusal_line number) out.old }
{
    out.put_bytes(b"no ");
    put_number(out, number as u32);
}

impl<'a, R: Print + Eprint> Printer<'a, R> {
    // A number on a line.
    pub fn number(&mut self, n: u32) {
        self.make_room();
        put_number(&mut self.out, n);
    }

    // A refusal, unless nothing is refused.
    pub fn refusal(&mut self, number: u16) {
        if number != 0 {
            self.make_room();
            put_refusal(&mut self.out, number);
        }
    }

    // One delivered frame.
    fn delivery(&mut self, place: u32, frame: &[u8]) {
        self.make_room();
        if let Ok(Frame::Message(m)) = frames::read(frame) {
            put_delivery(&mut self.out, place, m, frames::content(frame));
        }
    }

    // All frames that a place has handed out, one after another.
    pub fn deliveries(&mut self, place: u32, handed: &[u8]) {
        for frame in ring::Frames::new(handed) {
            self.delivery(place, frame);
        }
    }
}
