// A set of up to 16 members as a number, of which bit i stands for member i, by arithmetic: pages, and boards as a byte widened.
ghost use Rattle.std.specs.Prelude.{◌≡◌, ℕ, ◌^◌, ◌<◌};
ghost use Rattle.model.specs.Definitions.Layout.{most_boards, most_pages};
ghost use Rattle.model.specs.Definitions.Parts.{member, with_member, without_member};

// The number whose only bit stands for a member.
fn bit(i: usize) -> u16
    requires { i < most_pages }
    ensures { result ≡ 2 ^ i }
{
    1 << i
}

// A set of boards is a byte, one of pages two.
pub trait Set: Copy {
    ghost number: { Self → ℕ };

    ghost most: { ℕ };

    fn has(self, i: usize) -> bool
        requires { i < most }
        ensures { result ≡ member i (number self) };

    fn with_member(self, i: usize) -> Self
        requires { i < most }
        ensures { number result ≡ with_member i (number self) };

    fn without_member(self, i: usize) -> Self
        requires { i < most }
        ensures { number result ≡ without_member i (number self) };
}

impl Set for u16 {
    ghost number = { λ set. set };

    ghost most = { most_pages };

    fn has(self, i: usize) -> bool {
        self / bit(i) % 2 == 1
    }

    fn with_member(self, i: usize) -> u16 {
        if self.has(i) { self } else { self + bit(i) }
    }

    fn without_member(self, i: usize) -> u16 {
        if self.has(i) { self - bit(i) } else { self }
    }
}

// As a wider set, of which the higher bits are none.
impl Set for u8 {
    ghost number = { λ set. set };

    ghost most = { most_boards };

    fn has(self, i: usize) -> bool {
        u16::from(self).has(i)
    }

    fn with_member(self, i: usize) -> u8 {
        u16::from(self).with_member(i) as u8
    }

    fn without_member(self, i: usize) -> u8 {
        u16::from(self).without_member(i) as u8
    }
}
