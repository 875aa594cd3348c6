// Standard input, as much at a time as comes.
ghost use Rattle.std.specs.Prelude.{◌≤◌, length};

use std::io::Read;

// Reads once, and answers how many bytes came; none is the end. A read that fails is reported, and is
// the end too. Ruled out: a count past the buffer's end; what a stream gives no clause can say.
pub fn read_some(rt: &impl Eprint, stream: &mut impl Read, buffer: &mut [u8]) -> usize
    ensures { result ≤ length buffer.new }
{
    match stream.read(buffer) {
        Ok(n) => n,
        Err(e) => {
            let _ = eprintln!(rt; "standard input: {e}");
            0
        }
    }
}
