// Text put piece by piece into a buffer, on its way to standard output or wherever it is lent from. And
// standard input, as much at a time as comes.
#![tactic(auto)]

mod input;
mod output;
mod put;

pub use input::read_some;
pub use output::{Output, ROOM};
pub use put::{put_bytes, put_decimal, put_escaped};
