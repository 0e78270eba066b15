// The line runner on buffers: a line from its bytes to the bytes that it prints.
ghost use Rattle.script.specs.Definitions.Runner.{line as line_step};
ghost use Rattle.script.specs.Clauses.{Ready, Ran, state_of};

use crate::work::line_work;
use lines::print::put_line;
use lines::request::read_request;
use lines::tally::{Tally, with_line};

// How far the runner is: the bank's bytes, the tally, and the place of the output's next byte.
#[derive(Clone, Copy, Default)]
pub struct Progress {
    pub size: usize,
    pub tally: Tally,
    pub at: usize,
}

// One line's bytes, without the byte 10 that ends it.
pub fn run_line(line: &[u8], bank: &mut [u8], out: &mut [u8], from: Progress) -> Progress
    requires { Ready bank.old out.old from }
    ensures { Ran (line_step line.now (state_of bank.old from)) from result bank.old out.old bank.new
        out.new }
{
    let number = from.tally.read + 1;
    let work = line_work(bank, from.size, number, read_request(line));
    let at = put_line(out, from.at, number, work.printed);
    Progress {
        size: work.size,
        tally: with_line(from.tally, work.printed.code),
        at,
    }
}
