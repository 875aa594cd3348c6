// Standard output through a buffer.
use text::Output;

// Once a write has failed nothing more is written.
#[derive(Drop)]
pub struct Printer<'a, R> {
    pub rt: &'a R,
    pub out: Output,
    pub is_broken: bool,
}

// No line is longer.
pub const LONGEST_LINE: usize = 128;

impl<'a, R: Print + Eprint> Printer<'a, R> {
    pub fn new(rt: &'a R) -> Printer<'a, R> {
        Printer {
            rt,
            out: Output::new(),
            is_broken: false,
        }
    }

    // Writes out what the buffer has.
    pub fn flush(&mut self) {
        if !self.is_broken {
            let written = self.out.flush(self.rt);
            self.report(written);
        }
    }

    // Room for a line more.
    pub fn make_room(&mut self) {
        if !self.is_broken {
            let written = self.out.make_room(self.rt, LONGEST_LINE);
            self.report(written);
        }
    }

    // A write that fails is reported.
    fn report(&mut self, written: std::io::Result<()>) {
        if let Err(e) = written {
            let _ = eprintln!(self.rt; "standard output: {e}");
            self.is_broken = true;
        }
    }
}
