// What stands at a place of a slice, read and written: a byte, a number, a page.
ghost use Rattle.std.specs.Prelude.{◌≡◌, [], ◌∷◌, ◌+◌, ◌^◌, ◌≤◌, ◌<◌, length};
ghost use Rattle.model.specs.Definitions.Layout.{page_size};
ghost use Rattle.words.specs.LittleEndian.{bytes_of, number_of};
ghost use Rattle.model.specs.Definitions.Parts.{part, splice, byte_at, zeros};

use types::PAGE_SIZE;

pub fn get(s: &[u8], at: usize) -> u8
    requires { at < length s.now }
    ensures { result ≡ byte_at s.now at }
{
    s[at]
}

pub fn put(s: &mut [u8], at: usize, b: u8)
    requires { at < length s.old }
    ensures { s.new ≡ splice s.old at (b ∷ []) }
{
    s[at] = b;
}

// The number in the N bytes at a place, or over them.
pub fn get_number<const N: usize>(s: &[u8], at: usize) -> u64
    requires { (N ≤ 8) × (at + N ≤ length s.now) }
    ensures number { result ≡ number_of (part s.now at N) }
    ensures fits { result < 256 ^ N }
{
    words::read::<N>(s, at)
}

pub fn put_number<const N: usize>(s: &mut [u8], at: usize, number: u64)
    requires { (N ≤ 8) × (at + N ≤ length s.old) }
    ensures { s.new ≡ splice s.old at (bytes_of N number) }
{
    words::write::<N>(s, at, number);
}

// The page that stands at a place.
pub fn read_page(s: &[u8], at: usize) -> [u8; PAGE_SIZE]
    requires { at + page_size ≤ length s.now }
    ensures { result ≡ part s.now at page_size }
{
    let mut page = [0u8; PAGE_SIZE];
    page.copy_from_slice(&s[at..at + PAGE_SIZE]);
    page
}

// A page written over what stands at a place; the rest of the slice stays. `width` tells a caller what an array in a struct doesn't.
pub fn write_page(s: &mut [u8], at: usize, page: [u8; PAGE_SIZE])
    requires { at + page_size ≤ length s.old }
    ensures bytes { s.new ≡ splice s.old at page }
    ensures width { length page ≡ page_size }
{
    s[at..at + PAGE_SIZE].copy_from_slice(&page);
}

// The `n` bytes at a place of one slice over those at a place of another. (A loop: `copy_from_slice` of a length that isn't known calls for `memmove`, which
// the archive then needs from outside.)
pub fn copy(from: &[u8], a: usize, to: &mut [u8], b: usize, n: usize)
    requires { (a + n ≤ length from.now) × (b + n ≤ length to.old) }
    ensures { to.new ≡ splice to.old b (part from.now a n) }
{
    for i in 0..n {
        to[b + i] = from[a + i];
    }
}

// All of a part made zero.
pub fn clear(s: &mut [u8])
    ensures { s.new ≡ zeros (length s.old) }
{
    s.fill(0);
}

// The `n` bytes at a place made zero.
pub fn clear_at(s: &mut [u8], at: usize, n: usize)
    requires { at + n ≤ length s.old }
    ensures { s.new ≡ splice s.old at (zeros n) }
{
    s[at..at + n].fill(0);
}
