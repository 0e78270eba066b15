// An access of an up board: codes 6 and 7, then a fetch or copies dropped, then the access itself. (A flag `writes` is a value to compare by, `got writes`.)
ghost use Rattle.std.specs.Prelude.{◌≡◌, ◌&&◌, true, map, ℕ, ◌+◌, ◌*◌, ◌≤◌, ◌<◌, length, IfSome};
ghost use Rattle.model.specs.Definitions.Parts.{first_below, member};
ghost use Rattle.model.specs.Definitions.Layout.{most_pages, slot_count};
ghost use Rattle.model.specs.Definitions.Bank.{board_at, entry_at};
ghost use Rattle.model.specs.Definitions.Codec.{decode};
ghost use Rattle.model.specs.Definitions.WellFormed.{WellFormed, EntryOk};
ghost use Rattle.model.specs.Definitions.Steps.{Access, cells_asked, cells_read, cell_byte, access};
ghost use Rattle.model.specs.Definitions.Calls.{first_given, nobody_gives, live_refusals, prepared, performed, live};
ghost use Rattle.model.specs.Clauses.{Space, Ready};
ghost use Rattle.steps.specs.Asked.{got};
ghost use Rattle.copies.specs.Banks.{OfBank, Holds};
ghost use Rattle.exchange.specs.Progress.{running, stores_by, loss_of, Came};
ghost use Rattle.accesses.specs.Asks.{Stands, Lacking, Goes, Passes, Asks, InRange};
ghost use Rattle.accesses.specs.Results.{Answered, refusal};
ghost use Rattle.accesses.specs.Needs.{found};
ghost use Rattle.accesses.specs.Prepared.{without_out};

use crate::ask::Ask;
use crate::blocks::perform_cells;
use crate::need::short_board;
use copies::copies::drop_copies;
use copies::state::board_up;
use exchange::fetch::fetch;
use exchange::progress::Loss;
use fields::copies::count_copies;
use fields::sets::Set;
use format::directory::{read_copies, read_owner};
use format::layout::{block_at, block_size};
use steps::access::lacking_pages;
use types::{Answer, Outcome};

// The pages that the access lacks.
fn board_lacks(bank: &[u8], pages: usize, ask: Ask) -> u16
    requires { OfBank pages ask.board bank.now }
    ensures { (a : Access) → Stands pages a ask → Lacking pages a ask result (decode bank.now) }
{
    let a = block_at(pages, ask.board);
    let size = block_size(pages);
    lacking_pages(&bank[a..a + size], pages, ask.named, ask.write.is_some())
}

// Whether nobody can give a page, to a reader: "owner not up and copy-set empty"; and to a writer: "A write still needs the owner." (F-4)
fn nobody_gives(bank: &[u8], pages: usize, page: usize, writes: bool) -> bool
    requires { OfBank pages (entry_at (decode bank.now) page).owner bank.now × (page < pages) }
    ensures { result ≡ nobody_gives (got writes) (decode bank.now) page }
{
    let owner = usize::from(read_owner(bank, page));
    if board_up(bank, pages, owner) {
        return false;
    }
    if writes {
        return true;
    }
    count_copies(read_copies(bank, page)) == 0
}

// "6: live fetch, owner not up", of one page: it is lacking, and nobody can give it.
fn giver_missing(bank: &[u8], pages: usize, page: usize, lacking: u16, writes: bool) -> bool
    requires { OfBank pages 0 bank.now × WellFormed (decode bank.now) × (page < pages) }
    ensures { result ≡ (member page lacking && nobody_gives (got writes) (decode bank.now) page) }
{
    if lacking.has(page) {
        return nobody_gives(bank, pages, page, writes);
    }
    false
}

// "the lowest lacking page" (F-3) that nobody can give, if there is one.
fn missing_page(bank: &[u8], pages: usize, lacking: u16, writes: bool) -> Option<usize>
    requires { OfBank pages 0 bank.now × WellFormed (decode bank.now) }
    ensures found { found result ≡ first_below pages (λ p. member p lacking && nobody_gives (got writes) (decode bank.now) p) }
    ensures within { IfSome result (λ page. page < pages) }
{
    for page in 0..pages {
        if giver_missing(bank, pages, page, lacking, writes) {
            return Some(page);
        }
    }
    None
}

// Codes 6 and 7, in this order, of an access that needs other boards, or their copies dropped; "Code 6 names the owner" (F-3).
fn live_verdict(
    bank: &[u8],
    boards: usize,
    pages: usize,
    ask: Ask,
    lacking: u16,
) -> Result<(), Answer>
    requires { Asks boards pages ask bank.now × IfSome ask.write (λ w. w.page < pages) }
    ensures { (a : Access) → Lacking pages a ask lacking (decode bank.now)
        → refusal result ≡ first_given (live_refusals ask.board a (decode bank.now)) }
{
    if lacking == 0 && ask.write.is_none() {
        return Ok(());
    }
    if let Some(page) = missing_page(bank, pages, lacking, ask.write.is_some()) {
        return Err(Answer::OwnerNotUp(read_owner(bank, page)));
    }
    match short_board(bank, boards, pages, ask, lacking) {
        Some(board) => Err(Answer::LogFull(board as u8)),
        None => Ok(()),
    }
}

// An own write takes back the copies that are out.
fn drop_out(bank: &mut [u8], pages: usize, board: usize, page: usize)
    requires { OfBank pages board bank.old × (page < pages) × EntryOk (length (decode bank.old).boards) (entry_at (decode bank.old) page)
        × ((c : ℕ) → c < length (decode bank.old).boards → member c (entry_at (decode bank.old) page).copies ≡ true
        → Space (board_at (decode bank.old) c)) }
    ensures { Holds bank.new (without_out board page (decode bank.old)) }
{
    if 0 < count_copies(read_copies(bank, page)) {
        drop_copies(bank, pages, board, page);
    }
}

// What comes before the access itself: a fetch, or the copies of an owned page dropped, or nothing.
fn prepare(bank: &mut [u8], pages: usize, ask: Ask, lacking: u16) -> Result<u32, Loss>
    requires { Asks (length (decode bank.old).boards) pages ask bank.old × IfSome ask.write (λ w. w.page < pages)
        × ((a : Access) × Passes pages a ask lacking (decode bank.old)) }
    ensures run { (a : Access) → Lacking pages a ask lacking (decode bank.old) → (n : ℕ)
        → Came bank.new (n + stores_by result) (loss_of result) (prepared ask.board a (running n (decode bank.old))) }
    ensures few { stores_by result ≤ most_pages * slot_count }
{
    if lacking != 0 {
        return fetch(bank, pages, ask.board, lacking, ask.write.map(|w| w.page));
    }
    if let Some(w) = ask.write {
        drop_out(bank, pages, ask.board, w.page);
    }
    Ok(0)
}

// The access itself on its board's block, with the bytes of its cells.
fn perform_at(bank: &mut [u8], pages: usize, ask: Ask, cells: &[u8], out: &mut [u8])
    requires { OfBank pages ask.board bank.old × InRange pages ask cells.now (length out.old)
        × ((a : Access) × Stands pages a ask × Ready a (board_at (decode bank.old) ask.board)) }
    ensures read { out.new
        ≡ map (cell_byte (board_at (decode bank.old) ask.board).working.frames) (cells_asked cells.now) }
    ensures did { (a : Access) → Stands pages a ask → Ready a (board_at (decode bank.old) ask.board)
        → Holds bank.new (access ask.board a (decode bank.old)) }
{
    let a = block_at(pages, ask.board);
    let size = block_size(pages);
    perform_cells(&mut bank[a..a + size], pages, ask, cells, out);
}

// The access that codes 6 and 7 let pass.
fn proceed(
    bank: &mut [u8],
    pages: usize,
    ask: Ask,
    lacking: u16,
    cells: &[u8],
    out: &mut [u8],
) -> Outcome
    requires { Asks (length (decode bank.old).boards) pages ask bank.old × InRange pages ask cells.now (length out.old)
        × ((a : Access) × Passes pages a ask lacking (decode bank.old)) }
    ensures run { (a : Access) → Passes pages a ask lacking (decode bank.old) → cells_read a ≡ cells_asked cells.now → (n : ℕ)
        → Answered a bank.new result n
        (performed ask.board a (prepared ask.board a (running n (decode bank.old)))) out.new }
    ensures few { result.stores ≤ most_pages * slot_count }
{
    match prepare(bank, pages, ask, lacking) {
        Ok(stores) => {
            perform_at(bank, pages, ask, cells, out);
            Outcome {
                answer: Answer::Done(0),
                stores,
            }
        }
        Err(Loss { board, stores }) => Outcome {
            answer: Answer::PowerLost(board),
            stores,
        },
    }
}

// The answer of a done access has value 0 here; the bytes that it read are in the buffer.
pub fn live(
    bank: &mut [u8],
    boards: usize,
    pages: usize,
    ask: Ask,
    cells: &[u8],
    out: &mut [u8],
) -> Outcome
    requires { Asks boards pages ask bank.old × InRange pages ask cells.now (length out.old)
        × ((a : Access) × Goes pages a ask (decode bank.old)) }
    ensures run { (a : Access) → Goes pages a ask (decode bank.old) → cells_read a ≡ cells_asked cells.now → (n : ℕ)
        → Answered a bank.new result n (live ask.board a (running n (decode bank.old))) out.new }
    ensures few { result.stores ≤ most_pages * slot_count }
{
    let lacking = board_lacks(bank, pages, ask);
    match live_verdict(bank, boards, pages, ask, lacking) {
        Ok(()) => proceed(bank, pages, ask, lacking, cells, out),
        Err(answer) => Outcome { answer, stores: 0 },
    }
}
