// One input, read by read: what a read prints is written out before the next one.
ghost use Rattle.std.specs.Prelude.{◌+◌, ◌-◌, ◌*◌, ◌^◌, ◌≤◌, ◌<◌, ◌≡◌, true, length, if◌then◌else◌, OnOk, IfOk, IfErr, IfSome};
ghost use Rattle.std.specs.Io.KnownBytes.{Appends, Keeps};
ghost use Rattle.lines.specs.Clauses.{most_line, most_last};
ghost use Rattle.script.specs.Definitions.Runner.{run};
ghost use Rattle.script.specs.Feeding.{finish};
ghost use Rattle.script.specs.Clauses.{InBuffers, Buffers, machine_of};
ghost use Rattle.lines.specs.Definitions.Tally.{stopped};
ghost use Rattle.std.specs.declared.ops.ControlFlow.TheVariants.{Continue, Break};
ghost use Rattle.runner.specs.Reads.{IfInput, PrintedSoFar, Turned};

use lines::tally::stopped;
use script::feed::{Machine, start};
use script::stream::{BANK_BUFFER, LINE_BUFFER, OUT_PER_BYTE, end_input, feed_read};
use std::io;
use std::io::{Read, Write};
use std::ops::ControlFlow;

// How much is read at once.
const READ_BUFFER: usize = 4096;

// The end of input prints a line and three numbers: less than two bytes more of input may print.
const OUT_BUFFER: usize = OUT_PER_BYTE * (READ_BUFFER + 2);

// A read or a write that failed.
#[derive(Debug, Drop)]
pub enum Failure {
    Input(io::Error),
    Output(io::Error),
}

// Writes all that was printed.
fn write_out<W: Write>(output: &mut W, printed: &[u8]) -> Result<(), Failure>
    ensures ok { OnOk result (Appends (W.contents output.old) (W.contents output.new) printed.now) }
    ensures err { IfErr result (λ e. IfInput e ⊥) }
{
    output.write_all(printed).map_err(Failure::Output)
}

// After a write: nothing more where the runner has stopped reading.
fn next_of(machine: Machine) -> ControlFlow<Machine, Machine>
    ensures { result ≡ (if stopped machine.progress.tally then Break machine else Continue machine) }
{
    if stopped(machine.progress.tally) {
        ControlFlow::Break(machine)
    } else {
        ControlFlow::Continue(machine)
    }
}

// Reads once, feeds what came and writes out what it prints. It breaks off at the end of input, and where the runner has stopped reading.
fn run_read<R: Read, W: Write>(
    input: &mut R,
    output: &mut W,
    buffer: &mut [u8],
    line: &mut [u8],
    bank: &mut [u8],
    out: &mut [u8],
    from: Machine,
) -> Result<ControlFlow<Machine, Machine>, Failure>
    requires { InBuffers line.old bank.old from × (most_line * length buffer.old ≤ length out.old) }
    ensures ok { IfOk result (λ t. Turned t (length buffer.old) from line.old bank.old line.new
        bank.new (R.remaining input.old) (R.remaining input.new) (W.contents output.old) (W.contents output.new)) }
    ensures err { IfErr result (λ e. IfInput e (Keeps (R.remaining input.old) (R.remaining input.new)
        × Keeps (W.contents output.old) (W.contents output.new))) }
{
    let n = input.read(buffer).map_err(Failure::Input)?;
    if n == 0 {
        return Ok(ControlFlow::Break(from));
    }
    let machine = feed_read(&buffer[..n], line, bank, out, from);
    write_out(output, &out[..machine.progress.at])?;
    Ok(next_of(machine))
}

// The end of input: a last line without its byte 10, and the three numbers.
fn run_end<W: Write>(
    output: &mut W,
    line: &[u8],
    bank: &mut [u8],
    out: &mut [u8],
    from: Machine,
) -> Result<(), Failure>
    requires { InBuffers line.now bank.old from × (most_line + most_last ≤ length out.old) }
    ensures ok { OnOk result (Appends (W.contents output.old) (W.contents output.new)
        (finish (machine_of line.now bank.old from))) }
    ensures err { IfErr result (λ e. IfInput e ⊥) }
{
    let end = end_input(line, bank, out, from);
    write_out(output, &out[..end])
}

// All reads, then the end of input. A proved loop has to end and nothing says that an input does, so it takes a number of turns that no run uses up.
fn run_reads<R: Read, W: Write>(
    input: &mut R,
    output: &mut W,
    buffer: &mut [u8],
    line: &mut [u8],
    bank: &mut [u8],
    out: &mut [u8],
) -> Result<(), Failure>
    requires { Buffers (length buffer.old) line.old bank.old out.old }
    ensures ok { OnOk result (IfSome (R.remaining input.old) (λ cs. 0 < length buffer.old
        → length cs < 2 ^ 64 - 1 → Appends (W.contents output.old) (W.contents output.new) (run cs))) }
    ensures err { IfErr result (λ e. IfInput e (PrintedSoFar (R.remaining input.old)
        (R.remaining input.new) (W.contents output.old) (W.contents output.new))) }
{
    let mut machine = start();
    for _turn in 0..u64::MAX {
        match run_read(input, output, buffer, line, bank, out, machine)? {
            ControlFlow::Continue(next) => machine = next,
            ControlFlow::Break(last) => return run_end(output, line, bank, out, last),
        }
    }
    run_end(output, line, bank, out, machine)
}

// A whole input. Of a reader and a writer whose bytes are known: what is written is `run` of what is read, however it is cut into reads. Where a read fails,
// what was written is what the bytes before it print.
pub fn run_input<R: Read, W: Write>(input: &mut R, output: &mut W) -> Result<(), Failure>
    ensures ok { OnOk result (IfSome (R.remaining input.old) (λ cs. length cs < 2 ^ 64 - 1
        → Appends (W.contents output.old) (W.contents output.new) (run cs))) }
    ensures err { IfErr result (λ e. IfInput e (PrintedSoFar (R.remaining input.old)
        (R.remaining input.new) (W.contents output.old) (W.contents output.new))) }
{
    let mut buffer = [0u8; READ_BUFFER];
    let mut line = [0u8; LINE_BUFFER];
    let mut bank = [0u8; BANK_BUFFER];
    let mut out = [0u8; OUT_BUFFER];
    run_reads(input, output, &mut buffer, &mut line, &mut bank, &mut out)
}
