// A value that stands in a fixed number of bytes: a frame, a record.
ghost use Rattle.std.specs.Prelude.{◌≡◌, ℕ, ◌+◌, ◌≤◌, List, length};
ghost use Rattle.model.specs.Definitions.Parts.{part, splice};

pub trait Encoded: Copy {
    const SIZE: usize;

    ghost SIZE: { ℕ };

    ghost encode: { Self → List ℕ };

    ghost decode: { List ℕ → Self };

    // The value in the whole of its bytes.
    fn read(s: &[u8]) -> Self
        requires { length s.now ≡ SIZE }
        ensures { result ≡ decode s.now };

    // The value over the whole of its bytes.
    fn write(self, s: &mut [u8])
        requires { length s.old ≡ SIZE }
        ensures { s.new ≡ encode self };

    // At a place of a larger part, read and written through its own part.
    fn read_at(s: &[u8], at: usize) -> Self
        requires { at + SIZE ≤ length s.now }
        ensures { result ≡ decode (part s.now at SIZE) }
    {
        Self::read(&s[at..at + Self::SIZE])
    }

    fn write_at(self, s: &mut [u8], at: usize)
        requires { at + SIZE ≤ length s.old }
        ensures { s.new ≡ splice s.old at (encode self) }
    {
        self.write(&mut s[at..at + Self::SIZE]);
    }
}
