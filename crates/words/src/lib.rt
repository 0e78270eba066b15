// Little-endian numbers at a place of a slice.
#![tactic(auto)]

ghost use Rattle.std.specs.Prelude.{◌≡◌, ◌++◌, ◌+◌, ◌^◌, ◌≤◌, ◌<◌, length, take, drop};
ghost use Rattle.words.specs.LittleEndian.{bytes_of, number_of};

// The number in the N bytes at a place: above them all bytes are zero.
pub fn read<const N: usize>(s: &[u8], at: usize) -> u64
    requires { (N ≤ 8) × (at + N ≤ length s.now) }
    ensures number { result ≡ number_of (take N (drop at s.now)) }
    ensures fits { result < 256 ^ N }
{
    let mut word = [0u8; 8];
    word[..N].copy_from_slice(&s[at..at + N]);
    u64::from_le_bytes(word)
}

// The lowest N bytes of a number over those at a place; the rest of the slice stays.
pub fn write<const N: usize>(s: &mut [u8], at: usize, number: u64)
    requires { (N ≤ 8) × (at + N ≤ length s.old) }
    ensures { s.new ≡ take at s.old ++ (bytes_of N number ++ drop (at + N) s.old) }
{
    s[at..at + N].copy_from_slice(&number.to_le_bytes()[..N]);
}
