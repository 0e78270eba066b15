// What a line's bytes ask for.
ghost use Rattle.std.specs.Prelude.{◌≡◌, []};
ghost use Rattle.std.specs.Option.{option_map};
ghost use Rattle.lines.specs.Definitions.Lines.{words, numbers_from, request_of, request};
ghost use Rattle.lines.specs.Clauses.{numbers_in};

use crate::number::read_number;
use crate::text::{MOST_BYTES, SPACE};
use arrayvec::ArrayVec;

// "N n p; R b p o; W b p o v; C b (checkpoint); K b (cut); F b k; S b (restart)", and anything else; K asks for a fuse of 0.
#[derive(Clone, Copy)]
pub enum Request {
    Make(u32, u32),
    Read(u32, u32, u32),
    Write(u32, u32, u32, u32),
    Checkpoint(u32),
    Fuse(u32, u32),
    Restart(u32),
    Unreadable,
}

// The numbers of the words behind a letter; none where a word is no number, or where there are more than four.
fn read_numbers(rest: &[u8]) -> Option<ArrayVec<u32, 4>>
    ensures { option_map numbers_in result ≡ numbers_from (Some []) (words rest.now) }
{
    let mut numbers = ArrayVec::new();
    for word in rest.split(|c| *c == SPACE) {
        numbers.try_push(read_number(word)?).ok()?;
    }
    Some(numbers)
}

// The line with this letter and these numbers.
#[tactic(auto, using(crate::specs::Laws::Lines::request_of_lem, crate::specs::Laws::Lines::no_letter), unfolding(crate::specs::Definitions::Lines::with_one, crate::specs::Definitions::Lines::with_two, crate::specs::Definitions::Lines::with_three, crate::specs::Definitions::Lines::with_four))]
fn request_of(letter: u8, numbers: &[u32]) -> Request
    ensures { result ≡ request_of letter (Some numbers.now) }
{
    match (letter, numbers) {
        (b'N', [n, p]) => Request::Make(*n, *p),
        (b'R', [b, p, o]) => Request::Read(*b, *p, *o),
        (b'W', [b, p, o, v]) => Request::Write(*b, *p, *o, *v),
        (b'C', [b]) => Request::Checkpoint(*b),
        (b'K', [b]) => Request::Fuse(*b, 0),
        (b'F', [b, k]) => Request::Fuse(*b, *k),
        (b'S', [b]) => Request::Restart(*b),
        _ => Request::Unreadable,
    }
}

// A line of any length, without the byte 10 that ends it.
#[tactic(auto, using(crate::specs::Laws::Lines::request_long, crate::specs::Laws::Lines::request_short, crate::specs::Laws::Lines::request_other_byte))]
pub fn read_request(line: &[u8]) -> Request
    ensures { result ≡ request line.now }
{
    if MOST_BYTES < line.len() {
        return Request::Unreadable;
    }
    let [letter, SPACE, rest @ ..] = line else {
        return Request::Unreadable;
    };
    match read_numbers(rest) {
        Some(numbers) => request_of(*letter, &numbers),
        None => Request::Unreadable,
    }
}
