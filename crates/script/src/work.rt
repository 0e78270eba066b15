// One line's work: the call that it asks for, on the bank's part of a buffer that holds the largest.
ghost use Rattle.std.specs.Prelude.{◌≡◌, ◌≤◌, length, take};
ghost use Rattle.script.specs.Definitions.Runner.{work};
ghost use Rattle.script.specs.Clauses.{called, most_bank, Works};
ghost use Rattle.lines.specs.declared.request.Request.TheVariants.{Make};

use engine::access::{read, write};
use engine::checkpoint::checkpoint;
use engine::fuse::fuse;
use engine::make::make;
use engine::restart::restart;
use format::layout::bank_size;
use fresh::sizes::Sizes;
use lines::print::{Printed, unreadable};
use lines::request::Request;
use types::{Answer, Outcome};

// What a line prints, and how many bytes the bank has then: 0 where there is none, since no bank is a bank of no bytes (`Worked`).
#[derive(Clone, Copy)]
pub struct Work {
    pub printed: Printed,
    pub size: usize,
}

// A line that is not an N on line 1, on a bank's bytes.
#[tactic(auto, unfolding(crate::specs::Definitions::Runner::work, crate::specs::Definitions::Runner::worked, crate::specs::Definitions::Runner::unread))]
fn do_call(bank: &mut [u8], request: Request) -> Printed
    ensures printed { result ≡ (called request bank.old).printed }
    ensures bytes { bank.new ≡ (called request bank.old).bank }
{
    match request {
        Request::Make(_, _) | Request::Unreadable => unreadable(),
        Request::Read(b, p, o) => read(bank, b, p, o).into(),
        Request::Write(b, p, o, v) => write(bank, b, p, o, v).into(),
        Request::Checkpoint(b) => checkpoint(bank, b).into(),
        Request::Fuse(b, k) => fuse(bank, b, k).into(),
        Request::Restart(b) => restart(bank, b).into(),
    }
}

// N on line 1: a bank in the first bytes of the buffer, or none.
fn make_bank(bank: &mut [u8], boards: u32, pages: u32) -> Work
    requires { length bank.old ≡ most_bank }
    ensures { Works (work 1 (Make boards pages) bank.old) result bank.old bank.new }
{
    let Some(sizes) = Sizes::of(boards, pages) else {
        let refused = Outcome {
            answer: Answer::OutOfRange,
            stores: 0,
        };
        return Work {
            printed: refused.into(),
            size: 0,
        };
    };
    let size = bank_size(sizes.boards, sizes.pages);
    let outcome = make(&mut bank[..size], boards, pages);
    Work {
        printed: outcome.into(),
        size,
    }
}

// A line that is not an N on line 1, on the bank's part of the buffer.
fn call_line(bank: &mut [u8], size: usize, request: Request) -> Work
    requires { size ≤ length bank.old }
    ensures { Works (called request (take size bank.old)) result bank.old bank.new }
{
    let printed = do_call(&mut bank[..size], request);
    Work { printed, size }
}

// Line `number`, which asks for `request`.
pub fn line_work(bank: &mut [u8], size: usize, number: u32, request: Request) -> Work
    requires { (length bank.old ≡ most_bank) × (size ≤ length bank.old) }
    ensures { Works (work number request (take size bank.old)) result bank.old bank.new }
{
    match request {
        Request::Make(boards, pages) if number == 1 => make_bank(bank, boards, pages),
        _ => call_line(bank, size, request),
    }
}
