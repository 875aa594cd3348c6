// Text on its way to standard output: a buffer and the position in it where the next piece goes.
ghost use Rattle.std.specs.Prelude.{◌≡◌, ◌+◌, ◌≤◌, length};
ghost use Rattle.text.specs.Text.{filled, put, piece, decimal, escaped, room};

use crate::put;
use std::io::Result;
use std::marker::Model;

pub const ROOM: usize = 65536;

#[derive(Drop)]
pub struct Output {
    out: [u8; ROOM],
    at: usize,
}

// What is put so far ends within the buffer.
impl Model for Output {
    ghost use Rattle.std.specs.Prelude.{◌≤◌, length};
    ghost use Rattle.text.specs.Text.{Filled, filled};

    ghost Value = { Filled };

    ghost view = { λ o. filled o.at o.out };

    ghost invariant = { λ o. o.at ≤ length o.out };
}

impl Output {
    // Ruled out: a text already there; a text that does not begin at the front.
    pub fn new() -> Output
        ensures { result.at ≡ 0 }
    {
        Output {
            out: [0; ROOM],
            at: 0,
        }
    }

    // The same as of the functions of these names, of this buffer.
    pub fn put_bytes(&mut self, bytes: &[u8])
        ensures { self.new ≡ put (piece bytes.now) self.old }
    {
        self.at = put::put_bytes(&mut self.out, self.at, bytes);
    }

    pub fn put_decimal(&mut self, n: u32)
        ensures { self.new ≡ put (decimal n) self.old }
    {
        self.at = put::put_decimal(&mut self.out, self.at, n);
    }

    pub fn put_escaped(&mut self, bytes: &[u8])
        ensures { self.new ≡ put (escaped bytes.now) self.old }
    {
        self.at = put::put_escaped(&mut self.out, self.at, bytes);
    }

    // Writes out what is put so far. After a write that fails it is gone too. Ruled out: a text that
    // stays, to be written again; a place within the buffer.
    pub fn flush(&mut self, rt: &impl Print) -> Result<()>
        ensures { self.new ≡ filled 0 self.old.out }
    {
        let written = rt.write_all(&self.out[..self.at]);
        self.at = 0;
        written
    }

    // Room for so many bytes more, after a write that fails too: if need be, what is put so far is
    // written out. Ruled out: room for one byte less; a text written out that has room behind it.
    pub fn make_room(&mut self, rt: &impl Print, size: usize) -> Result<()>
        requires { size ≤ room }
        ensures room { self.new.at + size ≤ length self.new.out }
        ensures kept { self.old.at + size ≤ length self.old.out → self.new ≡ self.old }
    {
        if self.out.len() - self.at < size {
            self.flush(rt)?;
        }
        Ok(())
    }
}
