// The bytes between words and behind lines, and how long a line may be.
pub const SPACE: u8 = b' ';

pub const NEWLINE: u8 = b'\n';

// "at most 64 bytes"
pub const MOST_BYTES: usize = 64;
