// A buffer of input: frames one after another, the last perhaps not whole yet.
ghost use Rattle.std.specs.Prelude.{◌≡◌, ◌-◌, ◌≤◌, ◌<◌, length, take, drop, IfSome, IsNone};
ghost use Rattle.frames.specs.Layout.{most_framed};
ghost use Rattle.dump.specs.Input.{whole_size};

// How long the frame is that a stream begins with; none while it has not come whole.
pub fn whole_size(stream: &[u8]) -> Option<usize>
    ensures value { result ≡ whole_size stream.now }
    ensures bounds { IfSome result (λ n. (0 < n) × (n ≤ length stream.now)) }
    ensures stream_len_bound { IsNone result → length stream.now < most_framed }
{
    frames::framed_size(stream).filter(|&size| size <= stream.len())
}

// Moves the bytes of `buffer` from `from` to `end` to its front, and answers how many they are. Where no
// frame was whole they stand there: a long frame may come a byte at a time.
pub fn keep_rest(buffer: &mut [u8], from: usize, end: usize) -> usize
    requires { (from ≤ end) × (end ≤ length buffer.old) }
    ensures value { result ≡ end - from }
    ensures buffer_after { take result buffer.new ≡ take result (drop from buffer.old) }
{
    if 0 < from {
        buffer.copy_within(from..end, 0);
    }
    end - from
}
