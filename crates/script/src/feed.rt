// The runner fed byte by byte, in bounded memory: the bytes of the line that has begun, the bank, and the output.
ghost use Rattle.std.specs.Prelude.{◌≡◌, [], ◌∷◌, ◌+◌, ◌≤◌, length};
ghost use Rattle.model.specs.Definitions.Parts.{splice};
ghost use Rattle.lines.specs.Clauses.{Put, most_line, most_last};
ghost use Rattle.script.specs.Feeding.{at_end, finish as finishing};
ghost use Rattle.script.specs.Clauses.{InBuffers, RunningFor, FedBy, machine_of, from_nothing};

use crate::line::{Progress, run_line};
use lines::print::put_last;
use lines::tally::stopped;
use lines::text::{MOST_BYTES, NEWLINE};

// What is kept between two bytes: how many bytes of a line there are, and how far the runner is. The line itself stands in a buffer that is lent, since `FedBy`
// says of all of it what it becomes (`line_left`).
#[derive(Clone, Copy, Default)]
pub struct Machine {
    pub pending: usize,
    pub progress: Progress,
}

// One byte of input.
#[tactic(auto, using(lines::specs::Laws::Tally::counts_on))]
pub fn feed_byte(c: u8, line: &mut [u8], bank: &mut [u8], out: &mut [u8], from: Machine) -> Machine
    requires { RunningFor 1 line.old bank.old out.old from }
    ensures { FedBy (c ∷ []) from result line.old bank.old out.old line.new bank.new out.new }
{
    if stopped(from.progress.tally) {
        return from;
    }
    if c == NEWLINE {
        return Machine {
            pending: 0,
            progress: run_line(&line[..from.pending], bank, out, from.progress),
        };
    }
    // Of a line that is too long one byte more is kept.
    if MOST_BYTES < from.pending {
        return from;
    }
    line[from.pending] = c;
    Machine {
        pending: from.pending + 1,
        ..from
    }
}

// Some bytes of input, as they were read. However the input is cut, it prints the same.
pub fn feed(
    input: &[u8],
    line: &mut [u8],
    bank: &mut [u8],
    out: &mut [u8],
    from: Machine,
) -> Machine
    requires { RunningFor (length input.now) line.old bank.old out.old from }
    ensures { FedBy input.now from result line.old bank.old out.old line.new bank.new
        out.new }
{
    let mut machine = from;
    for c in input {
        machine = feed_byte(*c, line, bank, out, machine);
    }
    machine
}

// Before the first byte: no bank, no line.
pub fn start() -> Machine
    ensures { result ≡ from_nothing }
{
    Machine::default()
}

// The end of input: a line that has begun ends, then come the three numbers. The answer is the place behind the output.
#[tactic(auto, using(lines::specs::Laws::Tally::counts_on))]
pub fn finish(line: &[u8], bank: &mut [u8], out: &mut [u8], from: Machine) -> usize
    requires { InBuffers line.now bank.old from × (from.progress.at + most_line + most_last ≤ length out.old) }
    ensures output { Put out.old from.progress.at (finishing (machine_of line.now bank.old from))
        out.new result }
    ensures bank { bank.new ≡ splice bank.old 0
        (at_end (machine_of line.now bank.old from)).machine.state.bank }
{
    if stopped(from.progress.tally) || from.pending == 0 {
        return put_last(out, from.progress.at, from.progress.tally);
    }
    let last = run_line(&line[..from.pending], bank, out, from.progress);
    put_last(out, last.at, last.tally)
}
