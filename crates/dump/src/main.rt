// The logger: frames one after another on standard input, a line of text for each on standard
// output. Whole frames that have come are shown before more input is waited for.
#![tactic(auto)]

mod input;
mod line;

ghost use Rattle.std.specs.Prelude.{◌+◌, ◌≤◌, ◌<◌, length};
ghost use Rattle.frames.specs.Layout.{most_framed};

use std::io::{Read, Result};
use text::Output;

// A line more. Inlined: at a call, what came of a write goes through memory for every line, 96 bytes with
// the error.
#[inline(always)]
fn show(rt: &impl Print, frame: &[u8], out: &mut Output) -> Result<()> {
    out.make_room(rt, line::LONGEST_LINE)?;
    line::put_line(out, frame);
    Ok(())
}

// Writes the line of each whole frame of `input`, and answers where they end: what is left is a part
// of one frame, or nothing. That holds whatever came of a write (where no room could be made for a
// line, nothing is left), so it stands beside what came of it. Frames have any length, so no method of
// slices cuts them.
fn show_frames(rt: &impl Print, input: &[u8], out: &mut Output) -> (usize, Result<()>)
    ensures { (result.0 ≤ length input.now) × (length input.now < result.0 + most_framed) }
{
    let mut from = 0;
    while let Some(size) = input::whole_size(&input[from..]) {
        if let Err(e) = show(rt, &input[from..from + size], out) {
            return (input.len(), Err(e));
        }
        from += size;
    }
    (from, out.flush(rt))
}

// The input ended within a frame, so that it does not read.
fn show_rest(rt: &impl Print, rest: &[u8], out: &mut Output) -> Result<()> {
    if !rest.is_empty() {
        show(rt, rest, out)?;
        out.flush(rt)?;
    }
    Ok(())
}

// Reads once, after the first `held` bytes of `buffer`, a frame that is not whole, and writes the
// lines of the frames that are whole then. `held` is then how many bytes are held for the next turn,
// whatever came of a write; the answer is whether there is one. The buffer has room for any frame, so
// there is always room to read, and nothing read is the end.
fn take_turn(
    rt: &(impl Print + Eprint),
    stream: &mut impl Read,
    buffer: &mut [u8],
    held: &mut usize,
    out: &mut Output,
) -> Result<bool>
    requires { (held.old < most_framed) × (most_framed ≤ length buffer.old) }
    ensures { held.new < most_framed }
{
    let more = text::read_some(rt, stream, &mut buffer[*held..]);
    if more == 0 {
        show_rest(rt, &buffer[..*held], out)?;
        return Ok(false);
    }
    let end = *held + more;
    let (from, written) = show_frames(rt, &buffer[..end], out);
    *held = input::keep_rest(buffer, from, end);
    written?;
    Ok(true)
}

// A proved loop has to end, and nothing says that the input does: no run uses up so many turns.
fn show_all(
    rt: &(impl Print + Eprint),
    stream: &mut impl Read,
    buffer: &mut [u8],
    out: &mut Output,
) -> Result<()>
    requires { most_framed ≤ length buffer.old }
{
    let mut held = 0;
    for _ in 0..u64::MAX {
        if !take_turn(rt, stream, buffer, &mut held, out)? {
            return Ok(());
        }
    }
    Ok(())
}

const INPUT_ROOM: usize = 131072;

fn main(rt: HostRuntime) {
    let mut stream = rt.stdin();
    let mut buffer = [0u8; INPUT_ROOM];
    let mut out = Output::new();
    if let Err(e) = show_all(&rt, &mut stream, &mut buffer, &mut out) {
        let _ = eprintln!(rt; "standard output: {e}");
    }
}
