// The bench: a script on standard input founds a ring of stations, posts readings and hands the token
// round; deliveries and refusals are printed.
#![tactic(auto)]

mod command;
mod fault;
mod line;
mod number;
mod output;
mod print;
mod run;
mod sizes;
mod stations;

use fault::Fault;
use line::Line;
use output::Printer;
use run::Ring;
use std::io::Read;

// Where the script stands: the ring, the output, the line that is being read and its number, and
// whether nothing more is read, since a line has ended after a write failed.
#[derive(Drop)]
struct Bench<'a, R> {
    ring: Ring,
    out: Printer<'a, R>,
    line: Line,
    number: u64,
    is_over: bool,
}

impl<'a, R: Print + Eprint> Bench<'a, R> {
    fn new(rt: &'a R) -> Bench<'a, R> {
        Bench {
            ring: Ring::new(),
            out: Printer::new(rt),
            line: Line::new(),
            number: 1,
            is_over: false,
        }
    }

    // A line has ended: what it asks for is done.
    fn obey(&mut self) -> Result<(), Fault> {
        self.line.end();
        let command = self.line.command()?;
        self.ring.run(command, &mut self.out)
    }

    // What is wrong with a line goes to standard error; where that fails, nobody can be told.
    fn end_line(&mut self) {
        if let Err(fault) = self.obey() {
            let _ = eprintln!(self.out.rt; "line {}: {fault}", self.number);
        }
        self.line.clear();
        self.number = self.number.wrapping_add(1);
        self.is_over = self.out.is_broken;
    }

    fn take_bytes(&mut self, input: &[u8]) {
        for &b in input {
            if b == b'\n' {
                self.end_line();
            } else {
                self.line.take(b);
            }
        }
    }

    // A proved loop has to end, and nothing says that the input does: no run uses up so many turns.
    // What is printed so far goes out before more input is waited for.
    fn read_all(&mut self, stream: &mut impl Read, input: &mut [u8]) {
        for _ in 0..u64::MAX {
            self.out.flush();
            let n = text::read_some(self.out.rt, stream, input);
            self.take_bytes(&input[..n]);
            if n == 0 || self.is_over {
                return;
            }
        }
    }
}

const INPUT_ROOM: usize = 65536;

// A last line without a line end is a line too.
fn main(rt: HostRuntime) {
    let mut stream = rt.stdin();
    let mut input = [0u8; INPUT_ROOM];
    let mut bench = Bench::new(&rt);
    bench.read_all(&mut stream, &mut input);
    bench.end_line();
    bench.out.flush();
}
