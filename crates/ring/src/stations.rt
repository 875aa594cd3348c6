// Stations by place: their records stand one after another in lent bytes, place p's from
// RECORD_SIZE * p on. A call at a place is the call over bytes on the record there.
ghost use Rattle.std.specs.Prelude.{◌≡◌, ◌+◌, ◌*◌, min, length};
ghost use Rattle.record.specs.Layout.{record_size};
ghost use Rattle.station.specs.Answer.{outcome_of};
ghost use Rattle.visit.specs.Output.{followed_by};
ghost use Rattle.ring.specs.Stations.{records_after, posted_at, arrived_at};

use station::Outcome;

// Where the record of a place begins, or where the bytes end.
pub fn start_of(records: &[u8], place: usize) -> usize
    ensures { result ≡ min (record_size * place) (length records.now) }
{
    record::RECORD_SIZE.saturating_mul(place).min(records.len())
}

// Where it ends, or where the bytes end.
pub fn end_of(records: &[u8], place: usize) -> usize
    ensures { result ≡ min (record_size * place + record_size) (length records.now) }
{
    let from = start_of(records, place);
    from.saturating_add(record::RECORD_SIZE).min(records.len())
}

// A post at a place. Ruled out: another place's record changed; a place past the end taken.
pub fn post_at(records: &mut [u8], place: usize, service: u16, content: &[u8]) -> Outcome
    ensures { (result ≡ outcome_of (posted_at place records.old service content.now).answer)
        × (records.new ≡ records_after place
        (posted_at place records.old service content.now)
        records.old) }
{
    let from = start_of(records, place);
    let end = end_of(records, place);
    totem::totem_post(&mut records[from..end], service, content)
}

// A frame arrives at a place. Ruled out: another place's record changed; deliveries of another
// place's.
pub fn arrive_at(
    records: &mut [u8],
    place: usize,
    frame: &[u8],
    frames: &mut [u8],
    deliveries: &mut [u8],
) -> Outcome
    ensures { (result ≡ outcome_of
        (arrived_at place records.old frame.now (length frames.old) (length deliveries.old)).answer)
        × (records.new ≡ records_after place
        (arrived_at place records.old frame.now (length frames.old) (length deliveries.old))
        records.old)
        × (frames.new ≡ followed_by
        (arrived_at place records.old frame.now (length frames.old) (length deliveries.old)).frames
        frames.old)
        × (deliveries.new ≡ followed_by
        (arrived_at place records.old frame.now (length frames.old) (length deliveries.old)).deliveries
        deliveries.old) }
{
    let from = start_of(records, place);
    let end = end_of(records, place);
    totem::totem_arrive(&mut records[from..end], frame, frames, deliveries)
}
