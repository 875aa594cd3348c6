// A call on a record by value: the record's bytes, the call on them, and what it leaves: its answer and the record.
ghost use Rattle.std.specs.Prelude.{◌≡◌, ℕ, List};
ghost use Rattle.station.specs.inner.Value.{zeros, lent_by, Leaves, settled};

use crate::answer::Answer;
use crate::refusal::Refusal;
use record::Record;

#[derive(Clone, Copy)]
pub struct Done {
    pub answer: Result<Answer, Refusal>,
    pub rec: Record,
}

impl Done {
    // The record goes back to where it was lent, the answer to the caller. Ruled out: the record as it was before the
    // call; one answer for every call.
    pub fn store(self, rec: &mut Record) -> Result<Answer, Refusal>
        ensures { (rec.new ≡ self.rec) × (result ≡ self.answer) }
    {
        *rec = self.rec;
        self.answer
    }
}

// The bytes of a whole record. Of one that isn't whole nothing is written: zeros are not whole either, so that a
// call on them is refused as a call on the record is.
fn lend(rec: Record, bytes: &mut [u8; record::RECORD_SIZE])
    ensures { bytes.new ≡ lent_by rec bytes.old }
{
    if record::is_whole(rec) {
        record::encode(rec, bytes);
    }
}

// What a call on these bytes leaves of the record by value: where it was refused, the record as it was.
pub fn settle(
    rec: Record,
    answer: Result<Answer, Refusal>,
    bytes: &[u8; record::RECORD_SIZE],
) -> Done
    ensures { result ≡ settled rec answer bytes.now }
{
    if answer.is_err() {
        return Done { answer, rec };
    }
    Done {
        answer,
        rec: record::decode(bytes),
    }
}

// A call on a record by value: `call` goes over the record's bytes and the two buffers. Ruled out: another record's
// bytes; what a refused call left there.
pub fn over_bytes<F>(rec: Record, frames: &mut [u8], deliveries: &mut [u8], call: F) -> Done
where
    F: FnOnce(&mut [u8], &mut [u8], &mut [u8]) -> Result<Answer, Refusal>,
    requires { F.IsAlwaysCallable call }
    ensures { (s : List ℕ)
        × Leaves F.FnOnce call (lent_by rec zeros) frames.old deliveries.old result.answer s frames.new deliveries.new
        × (result ≡ settled rec result.answer s) }
{
    let mut bytes = [0u8; record::RECORD_SIZE];
    lend(rec, &mut bytes);
    let answer = call(&mut bytes, frames, deliveries);
    settle(rec, answer, &bytes)
}
