// Question 1's bounds.

// On the buffer for frames: what a visit broadcasts at most, and the token.
pub const MOST_FRAMES: usize = record::MOST_BROADCASTS * frames::LONGEST_MESSAGE
    + frames::LONGEST_TOKEN;

// On the buffer for deliveries: all that is held.
pub const MOST_DELIVERIES: usize = record::MOST_HELD * frames::LONGEST_MESSAGE;
