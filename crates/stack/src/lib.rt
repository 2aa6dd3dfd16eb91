// The public library: a stack as one row of board records, lent to each routine (01, The stack and its readings; 02, tickets 3, 8 and 9).
// Each routine looks at the row, finds the board's record in it, and hands that on.
#![tactic(auto)]

ghost use Rattle.std.specs.Prelude.{◌≡◌, ◌<◌, IfOk, length};
ghost use Rattle.stack.specs.Row.{bad_count, place_of};
ghost use Rattle.stack.specs.Open.{good_plans, bad_plans, open_answer, open_row, open_counts_answer, open_counts_row};
ghost use Rattle.stack.specs.Sample.{sample_answer, sample_row};
ghost use Rattle.stack.specs.Way.{all_good, row_checked, place_in, plain_counts, obey_outcome_at, obey_row_at, listing_in, buffer_in};
ghost use Rattle.stack.specs.Frame.{frame_answer, frame_row, frame_buffer};
ghost use Rattle.stack.specs.List.{list_answer, list_buffer};
ghost use Rattle.stack.specs.Read.{reading_of};
ghost use Rattle.stack.specs.Up.{up_of};

use board::{Board, Readings, Sampled};
use frame::{Reply, Request};
use reading::{Line, Whole};
use refusal::Refusal;

// ---- which row is good, and where a board is

fn bad_count(boards: usize) -> bool
    ensures { result ≡ bad_count boards }
{
    (boards < 1) | (16 < boards)
}

// A `for`, and no `all` of the library's, with which each record of a row took a test more: a quiet sample in a row of 16 a fifth more time.
fn all_good(row: &[Board]) -> bool
    ensures { result ≡ all_good row.now }
{
    for b in row {
        if board::bad_board(b) {
            return false;
        }
    }
    true
}

// Refusal 1, which every act asks first.
fn check_row(row: &[Board]) -> Result<(), Refusal>
    ensures { result ≡ row_checked row.now }
{
    if bad_count(row.len()) {
        return Err(Refusal::BadRow);
    }
    if all_good(row) {
        Ok(())
    } else {
        Err(Refusal::BadRow)
    }
}

// The place of board 0, which no row has: a number, and no Option, by `past_end` of specs/Row.antt, since `sample_row` and what is shown of it
// (`sample-others`, and `taken` of the demands) have a place for each number. It is past the end of every good row, and the largest number, so that the
// compiled code takes 1 from 0 too.
const PAST_END: usize = 4294967295;

fn place_of(board: u32) -> usize
    ensures { result ≡ place_of board }
{
    if board == 0 {
        PAST_END
    } else {
        (board - 1) as usize
    }
}

// The place of a board in the row, or refusal 2.
fn place_in(row: &[Board], board: u32) -> Result<usize, Refusal>
    ensures value { result ≡ place_in row.now board }
    ensures inside { IfOk result (λ at. at < length row.now) }
{
    let at = place_of(board);
    if at < row.len() {
        return Ok(at);
    }
    Err(Refusal::NoBoard)
}

// ---- the opening

fn good_plans(plans: &[u32]) -> bool
    ensures { result ≡ good_plans plans.now }
{
    plans.iter().all(|plan| !board::bad_plan(*plan))
}

// Plans that open no stack: not 1 to 16 of them, or a bad one.
pub fn bad_plans(plans: &[u32]) -> bool
    ensures { result ≡ bad_plans plans.now }
{
    if bad_count(plans.len()) {
        return true;
    }
    !good_plans(plans)
}

// A plan for each board, southernmost first (crate board makes them): every record of the row as its board starts.
pub fn open_row(row: &mut [Board], plans: &[u32]) -> Result<(), Refusal>
    ensures { (result ≡ open_answer row.old plans.now) × (row.new ≡ open_row row.old plans.now) }
{
    if plans.len() != row.len() {
        return Err(Refusal::BadRow);
    }
    if bad_plans(plans) {
        return Err(Refusal::BadRow);
    }
    // Plans by their place: with a zip the proof did not close, as of what goes through a zip of `iter_mut` it knows the length and no record.
    for (i, b) in row.iter_mut().enumerate() {
        *b = board::fresh_board(plans[i]);
    }
    Ok(())
}

// Every count is the plan of a stand-alone board as it stands.
fn plain_counts(counts: &[u32]) -> bool
    ensures { result ≡ plain_counts counts.now }
{
    counts.iter().all(|count| *count < 256)
}

// The cell count of each board, southernmost first: stand-alone boards.
pub fn open_counts(row: &mut [Board], counts: &[u32]) -> Result<(), Refusal>
    ensures { (result ≡ open_counts_answer row.old counts.now) × (row.new ≡ open_counts_row row.old counts.now) }
{
    if plain_counts(counts) {
        return open_row(row, counts);
    }
    Err(Refusal::BadRow)
}

// ---- a sample

// A sample of one board of the row.
pub fn sample_stack(
    row: &mut [Board],
    board: u32,
    x: Readings,
    mv: &[u32],
) -> Result<Sampled, Refusal>
    ensures { (result ≡ sample_answer row.old board x mv.now) × (row.new ≡ sample_row row.old board x mv.now) }
{
    check_row(row)?;
    let at = place_in(row, board)?;
    board::sample_board(&mut row[at], x, mv)
}

// ---- a frame

fn obey(row: &mut [Board], asked: Request) -> Result<u8, Refusal>
    ensures { (result ≡ obey_outcome_at row.old asked) × (row.new ≡ obey_row_at row.old asked) }
{
    let at = place_in(row, (asked.address / 2) as u32)?;
    registers::obey_board(&mut row[at], asked)
}

// A frame from the host, with its lent reply buffer. What the frame itself decides is answered before a board is looked for.
pub fn frame_stack(row: &mut [Board], bytes: &[u8], reply: &mut [u8]) -> Result<Reply, Refusal>
    ensures { (result ≡ frame_answer row.old bytes.now reply.old) × ((row.new ≡ frame_row row.old bytes.now reply.old) × (reply.new ≡ frame_buffer row.old bytes.now reply.old)) }
{
    check_row(row)?;
    let taken = frame::take_apart(bytes, reply.len())?;
    let outcome = obey(row, taken.request);
    frame::put(reply, taken, outcome)
}

// ---- the listing of a board's journal

// The journal of one board, in a buffer with room for it: how many entries it has.
fn list_board(b: &Board, out: &mut [u32]) -> Result<u32, Refusal>
    ensures { (result ≡ listing_in b.now out.old) × (out.new ≡ buffer_in b.now out.old) }
{
    if out.len() < 3 * b.journal.listed() {
        return Err(Refusal::ListRoom);
    }
    let many = b.journal.put_listing(out);
    Ok(many as u32)
}

// The journal of one board of the row, oldest entry first, in a lent buffer of words: three for each entry, cause, cell and sample number.
pub fn list_stack(row: &[Board], board: u32, out: &mut [u32]) -> Result<u32, Refusal>
    ensures { (result ≡ list_answer row.now board out.old) × (out.new ≡ list_buffer row.now board out.old) }
{
    check_row(row)?;
    let at = place_in(row, board)?;
    list_board(&row[at], out)
}

// ---- the whole-stack reading

// The whole-stack reading.
pub fn read_stack(row: &[Board]) -> Result<Whole, Refusal>
    ensures { result ≡ reading_of row.now }
{
    check_row(row)?;
    Ok(reading::read_row(row))
}

// ---- the fault line alone

// Is anything up? The look at every record for a bad row comes first; the search for a latch ends at the first.
pub fn up_stack(row: &[Board]) -> Result<Line, Refusal>
    ensures { result ≡ up_of row.now }
{
    check_row(row)?;
    Ok(reading::line_row(row))
}
