// Reads, writes and cells of several pages: the tests on entry in the documents' order, then the access, live or repeated from the log.
ghost use Rattle.std.specs.Prelude.{◌≡◌, true, false, ◌≤◌, Some, None, length, eqb};
ghost use Rattle.types.specs.declared.Answer.TheVariants.{Done};
ghost use Rattle.model.specs.Definitions.Answers.{code};
ghost use Rattle.model.specs.Definitions.Bank.{board_at};
ghost use Rattle.model.specs.Definitions.Codec.{decode};
ghost use Rattle.model.specs.Definitions.Steps.{Access, Read, Write, ReadCells};
ghost use Rattle.model.specs.Definitions.Calls.{access_in_range, wrong_cells, access_bank, call, buffer_after, Accessing};
ghost use Rattle.model.specs.Clauses.{most_stores};
ghost use Rattle.accesses.specs.Asks.{Asks, InRange};
ghost use Rattle.accesses.specs.Results.{Answered};
ghost use Rattle.checks.specs.Findings.{OnBoard};
ghost use Rattle.checks.specs.Refusals.{outcome_of};
ghost use Rattle.engine.specs.Clauses.{Replied};
ghost use Rattle.engine.specs.Admissions.{WellAsked, read_or_write};
ghost use Rattle.engine.specs.Cells.{if_done};

use accesses::ask::Ask;
use accesses::live::live;
use accesses::replaying::replay;
use answers::numbers::numbers_of;
use checks::admission::{admit, numbers_fit};
use checks::bank::{board_count, page_count};
use checks::entry::enter;
use checks::refusal::{Refusal, answered};
use fields::cells::{MOST_CELLS, cells_fit, named_pages, wrong_cells};
use steps::state::{is_down, is_replaying};
use steps::written::CellWrite;
use types::{Answer, Outcome, State};

// An access whose numbers fit: codes 3, 4 and 5, then the access. The bytes of its cells are in `out` when it is done.
fn access_board(
    bank: &mut [u8],
    pages: usize,
    ask: Ask,
    state: State,
    cells: &[u8],
    out: &mut [u8],
) -> Result<Outcome, Refusal>
    requires { Asks (length (decode bank.old).boards) pages ask bank.old × InRange pages ask cells.now (length out.old)
        × (state ≡ (board_at (decode bank.old) ask.board).state) × ((a : Access) × WellAsked pages a ask cells.now (decode bank.old)) }
    ensures { (a : Access) → WellAsked pages a ask cells.now (decode bank.old)
        → Answered a bank.new (outcome_of result) 0 (access_bank ask.board a (decode bank.old)) out.new }
{
    let board = ask.board;
    if is_down(state) {
        return Err(Refusal::WrongState(board as u8));
    }
    let replaying = is_replaying(state);
    admit(
        bank,
        pages,
        board,
        replaying,
        ask.named,
        ask.write.is_some(),
    )?;
    let boards = board_count(bank);
    if replaying {
        return Ok(replay(bank, boards, pages, ask, cells, out));
    }
    Ok(live(bank, boards, pages, ask, cells, out))
}

fn is_done(answer: Answer) -> bool
    ensures { result ≡ eqb (code answer) 0 }
{
    numbers_of(answer).code == 0
}

// "the byte read", as the answer's value
fn with_value(outcome: Outcome, byte: u8) -> Outcome
    ensures { result ≡ record { answer = if_done outcome.answer (Done byte) outcome.answer; stores = outcome.stores } }
{
    if is_done(outcome.answer) {
        return Outcome {
            answer: Answer::Done(u32::from(byte)),
            ..outcome
        };
    }
    outcome
}

// A read is the list of one cell.
fn read_cell(
    bank: &mut [u8],
    pages: usize,
    board: u32,
    state: State,
    page: u8,
    offset: u8,
) -> Result<Outcome, Refusal>
    requires { OnBoard board bank.old state × (pages ≡ length (decode bank.old).directory)
        × (access_in_range board (Read page offset) (decode bank.old) ≡ true) }
    ensures { Replied (call (Accessing board (Read page offset)) bank.old) (outcome_of result) bank.new }
{
    let cell = [page, offset];
    let mut out = [0u8; 1];
    let ask = Ask {
        board: board as usize,
        named: named_pages(pages, &cell),
        write: None,
    };
    let outcome = access_board(bank, pages, ask, state, &cell, &mut out)?;
    Ok(with_value(outcome, out[0]))
}

// A write has no cell to read.
fn write_cell(
    bank: &mut [u8],
    pages: usize,
    board: u32,
    state: State,
    page: u8,
    offset: u8,
    value: u8,
) -> Result<Outcome, Refusal>
    requires { OnBoard board bank.old state × (pages ≡ length (decode bank.old).directory)
        × (access_in_range board (Write page offset value) (decode bank.old) ≡ true) }
    ensures { Replied (call (Accessing board (Write page offset value)) bank.old) (outcome_of result) bank.new }
{
    let cell = [page, offset];
    let mut out = [0u8; 1];
    let ask = Ask {
        board: board as usize,
        named: named_pages(pages, &cell),
        write: Some(CellWrite {
            page: usize::from(page),
            offset: usize::from(offset),
            value,
        }),
    };
    access_board(bank, pages, ask, state, &cell[0..0], &mut out[0..0])
}

// A read, or a write of a value.
fn access(
    bank: &mut [u8],
    board: u32,
    page: u32,
    offset: u32,
    value: Option<u32>,
) -> Result<Outcome, Refusal>
    ensures { Replied (call (Accessing board (read_or_write value page offset)) bank.old) (outcome_of result) bank.new }
{
    let state = enter(bank, board)?;
    let pages = page_count(bank);
    if !numbers_fit(pages, page, offset, value.unwrap_or(0)) {
        return Err(Refusal::OutOfRange);
    }
    // (`as`, since numbers_fit shows that they fit: a `TryFrom` would have a way out that no call takes.)
    let p = page as u8;
    let o = offset as u8;
    match value {
        Some(v) => write_cell(bank, pages, board, state, p, o, v as u8),
        None => read_cell(bank, pages, board, state, p, o),
    }
}

pub fn read(bank: &mut [u8], board: u32, page: u32, offset: u32) -> Outcome
    ensures reply { Replied (call (Accessing board (Read page offset)) bank.old) result bank.new }
    ensures few { result.stores ≤ most_stores }
{
    answered(access(bank, board, page, offset, None))
}

pub fn write(bank: &mut [u8], board: u32, page: u32, offset: u32, value: u32) -> Outcome
    ensures reply { Replied (call (Accessing board (Write page offset value)) bank.old) result bank.new }
    ensures few { result.stores ≤ most_stores }
{
    answered(access(bank, board, page, offset, Some(value)))
}

// The bytes read, into the second buffer, "which any code but 0 leaves unchanged" (document 02, F-3).
fn give(answer: Answer, bytes: &[u8], out: &mut [u8])
    requires { length out.old ≡ length bytes.now }
    ensures { out.new ≡ if_done answer bytes.now out.old }
{
    if is_done(answer) {
        out.copy_from_slice(bytes);
    }
}

// Cells as many as may be, all in range. They are read into another buffer first: power may still be lost after that, at the end of a replay.
fn show_cells(
    bank: &mut [u8],
    pages: usize,
    board: u32,
    state: State,
    cells: &[u8],
    bytes: &mut [u8],
    out: &mut [u8],
) -> Result<Outcome, Refusal>
    requires { OnBoard board bank.old state × (pages ≡ length (decode bank.old).directory) × (length out.old ≡ length bytes.old)
        × (access_in_range board (ReadCells cells.now (length out.old)) (decode bank.old) ≡ true)
        × (wrong_cells (ReadCells cells.now (length out.old)) ≡ false) }
    ensures reply { Replied (call (Accessing board (ReadCells cells.now (length out.old))) bank.old)
        (outcome_of result) bank.new }
    ensures given { out.new
        ≡ buffer_after (call (Accessing board (ReadCells cells.now (length out.old))) bank.old) out.old }
{
    let ask = Ask {
        board: board as usize,
        named: named_pages(pages, cells),
        write: None,
    };
    let outcome = access_board(bank, pages, ask, state, cells, bytes)?;
    give(outcome.answer, bytes, out);
    Ok(outcome)
}

// The tests of a list of cells, then its access.
fn try_read_cells(
    bank: &mut [u8],
    board: u32,
    cells: &[u8],
    out: &mut [u8],
) -> Result<Outcome, Refusal>
    ensures reply { Replied (call (Accessing board (ReadCells cells.now (length out.old))) bank.old)
        (outcome_of result) bank.new }
    ensures given { out.new
        ≡ buffer_after (call (Accessing board (ReadCells cells.now (length out.old))) bank.old) out.old }
{
    let state = enter(bank, board)?;
    let pages = page_count(bank);
    if !cells_fit(pages, cells) {
        return Err(Refusal::OutOfRange);
    }
    if wrong_cells(cells, out.len()) {
        return Err(Refusal::WrongCells);
    }
    // (Fixed memory: how many bytes are asked for, the caller says.)
    let n = out.len();
    let mut bytes = [0u8; MOST_CELLS];
    show_cells(bank, pages, board, state, cells, &mut bytes[0..n], out)
}

// "The front display wants up to 32 cells in one call" (document 02, F-3): "page byte and offset byte" of each in, its byte out, in the asked order.
pub fn read_cells(bank: &mut [u8], board: u32, cells: &[u8], out: &mut [u8]) -> Outcome
    ensures reply { Replied (call (Accessing board (ReadCells cells.now (length out.old))) bank.old)
        result bank.new }
    ensures given { out.new
        ≡ buffer_after (call (Accessing board (ReadCells cells.now (length out.old))) bank.old) out.old }
    ensures few { result.stores ≤ most_stores }
{
    answered(try_read_cells(bank, board, cells, out))
}
