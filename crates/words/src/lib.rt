// Little-endian words in byte slices, runs of them, and tests of whole slices: what the frames and
// the station record both stand on. A function that takes a position asks that the bytes are there;
// whoever lends bytes of any length tests that first.
#![tactic(auto)]

mod run;
mod scan;
mod word;

pub use run::{get_run, get_slice, put_many, put_run, put_slice};
pub use scan::{all_within, all_zero, distinct, lacks};
pub use word::Word;
