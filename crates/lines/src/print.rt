// What a line prints, as bytes of a buffer at a place.
ghost use Rattle.std.specs.Prelude.{◌≡◌, ◌+◌, ◌≤◌, ◌<◌, length};
ghost use Rattle.lines.specs.Definitions.Numbers.{decimal};
ghost use Rattle.lines.specs.Definitions.Output.{field, printed_of, unreadable, line_of, last_line};
ghost use Rattle.lines.specs.Clauses.{Put, most_field, most_line, most_last};

use crate::tally::Tally;
use crate::text::{NEWLINE, SPACE};
use answers::numbers::numbers_of;
use itoa::Buffer;
use types::Outcome;

// "code, value, who, stores": what a line prints behind its number. The code is the number that is printed: a line that is no call has 9, which is no answer's.
#[derive(Clone, Copy)]
pub struct Printed {
    pub code: u8,
    pub value: u32,
    pub who: u8,
    pub stores: u32,
}

// How many bytes a line prints at most: five numbers of ten digits, each with the byte behind it.
pub const MOST_LINE: usize = 5 * (10 + 1);

// What a call's answer prints.
impl From<Outcome> for Printed {
    ghost from_gives = { λ o p. p ≡ printed_of o };

    #[tactic(auto, unfolding(crate::specs::Definitions::Output::printed_of, model::specs::Definitions::Answers::code, model::specs::Definitions::Answers::value, model::specs::Definitions::Answers::who))]
    fn from(o: Outcome) -> Printed {
        let numbers = numbers_of(o.answer);
        Printed {
            code: numbers.code,
            value: numbers.value,
            who: numbers.who,
            stores: o.stores,
        }
    }
}

// "prints code 9", "the last three are 0 under code 9"
#[tactic(auto, unfolding(crate::specs::Definitions::Output::unreadable))]
pub fn unreadable() -> Printed
    ensures { result ≡ unreadable }
{
    Printed {
        code: 9,
        value: 0,
        who: 0,
        stores: 0,
    }
}

// A number's digits. The place goes in and comes out since `feed` and `finish` say by `Put` where they print.
fn put_digits(out: &mut [u8], at: usize, n: u32) -> usize
    requires { at + length (decimal n) ≤ length out.old }
    ensures { Put out.old at (decimal n) out.new result }
{
    let mut buffer = Buffer::new();
    let digits = buffer.format(n).as_bytes();
    let end = at + digits.len();
    out[at..end].copy_from_slice(digits);
    end
}

// A number and the byte behind it. By `write!` it would not prove: std says of an error neither when it comes nor that room rules it out.
fn put_field(out: &mut [u8], at: usize, n: u32, last: u8) -> usize
    requires { at + most_field ≤ length out.old }
    ensures bytes { Put out.old at (field n last) out.new result }
    ensures near { result ≤ at + most_field }
{
    let end = put_digits(out, at, n);
    out[end] = last;
    end + 1
}

// "line number, code, value, who, stores"
pub fn put_line(out: &mut [u8], at: usize, number: u32, printed: Printed) -> usize
    requires { at + most_line ≤ length out.old }
    ensures bytes { Put out.old at (line_of number printed) out.new result }
    ensures near { result ≤ at + most_line }
{
    let behind_number = put_field(out, at, number, SPACE);
    let behind_code = put_field(out, behind_number, u32::from(printed.code), SPACE);
    let behind_value = put_field(out, behind_code, printed.value, SPACE);
    let behind_who = put_field(out, behind_value, u32::from(printed.who), SPACE);
    put_field(out, behind_who, printed.stores, NEWLINE)
}

// "At the end come three numbers"
pub fn put_last(out: &mut [u8], at: usize, tally: Tally) -> usize
    requires { at + most_last ≤ length out.old }
    ensures { Put out.old at (last_line tally) out.new result }
{
    let behind_read = put_field(out, at, tally.read, SPACE);
    let behind_done = put_field(out, behind_read, tally.done, SPACE);
    put_field(out, behind_done, tally.refused, NEWLINE)
}
