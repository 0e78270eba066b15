// The tally of lines read, done and refused.
ghost use Rattle.std.specs.Prelude.{◌≡◌};
ghost use Rattle.lines.specs.Definitions.Tally.{counted, stopped};
ghost use Rattle.lines.specs.Clauses.{Counts};

#[derive(Clone, Copy, Default)]
pub struct Tally {
    pub read: u32,
    pub done: u32,
    pub refused: u32,
}

// "reading stops after line 4,294,967,295"
const MOST_LINES: u32 = 4294967295;

#[tactic(auto, unfolding(crate::specs::Definitions::Tally::stopped))]
pub fn stopped(tally: Tally) -> bool
    ensures { result ≡ stopped tally }
{
    MOST_LINES <= tally.read
}

// One line more: "done is code 0, refused all others".
#[tactic(auto, unfolding(crate::specs::Definitions::Tally::counted))]
pub fn count_line(tally: &mut Tally, code: u8)
    requires { Counts tally.old }
    ensures { tally.new ≡ counted code tally.old }
{
    tally.read += 1;
    if code == 0 {
        tally.done += 1;
    } else {
        tally.refused += 1;
    }
}

// The same by value, for every other caller: the tally is a local here, and lent from here.
pub fn with_line(tally: Tally, code: u8) -> Tally
    requires { Counts tally }
    ensures { result ≡ counted code tally }
{
    let mut lent = tally;
    count_line(&mut lent, code);
    lent
}
