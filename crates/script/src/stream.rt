// The runner on a stream of reads, in bounded memory: what a read prints stands at the beginning of `out`, for a program to write out before it reads on.
ghost use Rattle.std.specs.Prelude.{◌≡◌, ◌+◌, ◌*◌, ◌≤◌, length};
ghost use Rattle.model.specs.Definitions.Parts.{splice};
ghost use Rattle.lines.specs.Clauses.{most_line, most_last};
ghost use Rattle.script.specs.Feeding.{at_end, finish as finishing};
ghost use Rattle.script.specs.Clauses.{InBuffers, machine_of, emptied, Streamed, Written};

use crate::feed::{Machine, feed, finish};
use crate::line::Progress;
use format::layout::MOST_BANK;
use lines::print::MOST_LINE;
use lines::text::MOST_BYTES;

// What a stream's buffers hold: a line and one byte more, the largest bank, and for each byte of a read the longest line that it can print.
pub const LINE_BUFFER: usize = MOST_BYTES + 1;

pub const BANK_BUFFER: usize = MOST_BANK;

pub const OUT_PER_BYTE: usize = MOST_LINE;

// All output so far was written out: the next begins the buffer again.
fn empty_out(from: Machine) -> Machine
    ensures { result ≡ emptied from }
{
    Machine {
        progress: Progress {
            at: 0,
            ..from.progress
        },
        ..from
    }
}

// The bytes of one read. The answer's `at` is how many bytes of `out` they print.
pub fn feed_read(
    input: &[u8],
    line: &mut [u8],
    bank: &mut [u8],
    out: &mut [u8],
    from: Machine,
) -> Machine
    requires { InBuffers line.old bank.old from × (most_line * length input.now ≤ length out.old) }
    ensures { Streamed input.now from result line.old bank.old out.old line.new bank.new
        out.new }
{
    feed(input, line, bank, out, empty_out(from))
}

// The end of input. The answer is how many bytes of `out` it prints.
pub fn end_input(line: &[u8], bank: &mut [u8], out: &mut [u8], from: Machine) -> usize
    requires { InBuffers line.now bank.old from × (most_line + most_last ≤ length out.old) }
    ensures output { Written out.old (finishing (machine_of line.now bank.old from)) result out.new }
    ensures bank { bank.new ≡ splice bank.old 0
        (at_end (machine_of line.now bank.old from)).machine.state.bank }
{
    finish(line, bank, out, empty_out(from))
}
