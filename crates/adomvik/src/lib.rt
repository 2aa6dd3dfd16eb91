// The public library for C (include/adomvik.h; crate adomvik_c exports it): each act over records and lists that the caller lends.
// The result is the number of the refusal (01, Refusal numbers), or 0; an answer goes to a lent place, which a refusal leaves alone.
#![tactic(auto)]

ghost use Rattle.std.specs.Prelude.{◌≡◌, true, [], ◌∷◌, length, take};
ghost use Rattle.stack.specs.Sample.{sample_row};
ghost use Rattle.stack.specs.Frame.{frame_row, frame_buffer};
ghost use Rattle.stack.specs.List.{list_buffer};
ghost use Rattle.board.specs.Sample.{sample_of};
ghost use Rattle.stack.specs.Open.{open_row, open_counts_row};
ghost use Rattle.format.specs.Format.{sample, frame, reading, noted, recordable};
ghost use Rattle.recorder.specs.Recorder.{begin_recorder, begin_memory, note_recorder, note_memory, note_other, answer_of, frame_can};
ghost use Rattle.replay.specs.Check.{check_of, check_row};
ghost use Rattle.adomvik.specs.Placed.{reading_from, up_from, number_in, placed_in, number_of_listing};
ghost use Rattle.adomvik.specs.Calls.{open_number, counts_number, sample_number, sample_out, board_number, board_out, frame_number, list_number, read_number, read_out, up_number, up_out};

pub use board::Sampled;
use board::{Board, Readings};
use reading::{Line, Whole};
use recorder::Recorder;
use refusal::Refusal;
use replay::Checked;

// A whole-stack reading, as C's record has it: the line and the switches as 1 or 0, and the flagged cell.
#[repr(C)]
#[derive(Clone, Copy)]
pub struct Reading {
    pub line: u8,
    pub chg: u8,
    pub dsg: u8,
    pub board: u8,
    pub cell: u8,
}

// The fault line alone: the line as 1 or 0, and how many boards were looked at for it.
#[repr(C)]
#[derive(Clone, Copy)]
pub struct Up {
    pub line: u8,
    pub looked: u8,
}

impl From<Whole> for Reading {
    ghost from_gives = { λ whole r. r ≡ reading_from whole };

    fn from(whole: Whole) -> Reading {
        Reading {
            line: u8::from(whole.line),
            chg: u8::from(whole.chg),
            dsg: u8::from(whole.dsg),
            board: whole.flagged.board,
            cell: whole.flagged.cell,
        }
    }
}

impl From<Line> for Up {
    ghost from_gives = { λ line u. u ≡ up_from line };

    fn from(line: Line) -> Up {
        Up {
            line: u8::from(line.up),
            looked: line.looked,
        }
    }
}

// ---- what an answer puts into its place, and its number

// The number of an answer: that of its refusal, or 0.
fn number<T: Copy>(a: Result<T, Refusal>) -> u8
    ensures { result ≡ number_in a }
{
    match a {
        Ok(_) => 0,
        Err(why) => u8::from(why),
    }
}

// The same, where what an accepted act gives is put into its place.
fn place<T: Copy>(out: &mut T, a: Result<T, Refusal>) -> u8
    ensures { (result ≡ number_in a) × (out.new ≡ placed_in out.old a) }
{
    match a {
        Ok(value) => {
            *out = value;
            0
        }
        Err(why) => u8::from(why),
    }
}

// How many entries, or 256 more than the number of the refusal: one number, which C's header takes apart.
#[tactic(auto, unfolding(crate::specs::Placed::number_of_listing))]
fn listing_number(a: Result<u32, Refusal>) -> u32
    ensures { result ≡ number_of_listing a }
{
    match a {
        Ok(many) => many,
        Err(why) => 256 + u32::from(u8::from(why)),
    }
}

// ---- the acts

// The cell count of each board, southernmost first: every record of the row as a stand-alone board starts.
#[unsafe(no_mangle)]
pub extern "C" fn adomvik_open(row: &mut [Board], counts: &[u32]) -> u8
    ensures { (result ≡ counts_number row.old counts.now) × (row.new ≡ open_counts_row row.old counts.now) }
{
    number(stack::open_counts(row, counts))
}

// The plan of each board, as a number that the header's constructors make: every record of the row as its board starts.
#[unsafe(no_mangle)]
pub extern "C" fn adomvik_open_plans(row: &mut [Board], plans: &[u32]) -> u8
    ensures { (result ≡ open_number row.old plans.now) × (row.new ≡ open_row row.old plans.now) }
{
    number(stack::open_row(row, plans))
}

// A sample of one board of the row.
#[unsafe(no_mangle)]
pub extern "C" fn adomvik_sample(
    row: &mut [Board],
    board: u32,
    x: Readings,
    cells: &[u32],
    out: &mut Sampled,
) -> u8
    ensures { (result ≡ sample_number row.old board x cells.now) × ((row.new ≡ sample_row row.old board x cells.now) × (out.new ≡ sample_out row.old board x cells.now out.old)) }
{
    place(out, stack::sample_stack(row, board, x, cells))
}

// A sample of one record that is lent by itself.
#[unsafe(no_mangle)]
pub extern "C" fn adomvik_sample_board(
    b: &mut Board,
    x: Readings,
    cells: &[u32],
    out: &mut Sampled,
) -> u8
    ensures { (result ≡ board_number b.old x cells.now) × ((b.new ≡ (sample_of b.old x cells.now).board) × (out.new ≡ board_out b.old x cells.now out.old)) }
{
    place(out, board::sample_board(b, x, cells))
}

// A frame from the host, its reply in the lent buffer.
#[unsafe(no_mangle)]
pub extern "C" fn adomvik_frame(row: &mut [Board], bytes: &[u8], reply: &mut [u8]) -> u8
    ensures { (result ≡ frame_number row.old bytes.now reply.old) × ((row.new ≡ frame_row row.old bytes.now reply.old) × (reply.new ≡ frame_buffer row.old bytes.now reply.old)) }
{
    number(stack::frame_stack(row, bytes, reply))
}

// The journal of one board of the row, in words: cause, cell and sample number of each entry, oldest first. The header has it by entries, with the
// count in a place of its own.
#[unsafe(no_mangle)]
pub extern "C" fn adomvik_list(row: &[Board], board: u32, words: &mut [u32]) -> u32
    ensures { (result ≡ list_number row.now board words.old) × (words.new ≡ list_buffer row.now board words.old) }
{
    listing_number(stack::list_stack(row, board, words))
}

// The whole-stack reading.
#[unsafe(no_mangle)]
pub extern "C" fn adomvik_read(row: &[Board], out: &mut Reading) -> u8
    ensures { (result ≡ read_number row.now) × (out.new ≡ read_out row.now out.old) }
{
    place(out, stack::read_stack(row).map(Reading::from))
}

// Is anything up? The fault line alone.
#[unsafe(no_mangle)]
pub extern "C" fn adomvik_up(row: &[Board], out: &mut Up) -> u8
    ensures { (result ≡ up_number row.now) × (out.new ≡ up_out row.now out.old) }
{
    place(out, stack::up_stack(row).map(Up::from))
}

// ---- a recording of the acts, in memory that is lent beside them; a recorder is handed on from each to the next

#[unsafe(no_mangle)]
pub extern "C" fn adomvik_begin(memory: &mut [u8], plans: &[u32]) -> Recorder
    ensures { (result ≡ begin_recorder plans.now (length memory.old)) × (memory.new ≡ begin_memory plans.now memory.old) }
{
    recorder::begin(memory, plans)
}

#[unsafe(no_mangle)]
pub extern "C" fn adomvik_note_sample(
    r: Recorder,
    memory: &mut [u8],
    board: u32,
    x: Readings,
    cells: &[u32],
    number: u8,
    status: u8,
    bled: u16,
) -> Recorder
    ensures { (result ≡ note_recorder r (recordable (sample board x.elapsed x.load x.thermistor x.shunt cells.now)) (noted (sample board x.elapsed x.load x.thermistor x.shunt cells.now) (answer_of number (status ∷ bled ∷ []))) (length memory.old)) × (memory.new ≡ note_memory r (recordable (sample board x.elapsed x.load x.thermistor x.shunt cells.now)) (noted (sample board x.elapsed x.load x.thermistor x.shunt cells.now) (answer_of number (status ∷ bled ∷ []))) memory.old) }
{
    recorder::note_sample(r, memory, board, x, cells, number, status, bled)
}

#[unsafe(no_mangle)]
pub extern "C" fn adomvik_note_frame(
    r: Recorder,
    memory: &mut [u8],
    bytes: &[u8],
    reply: &[u8],
    number: u8,
) -> Recorder
    ensures { (result ≡ note_recorder r (frame_can bytes.now reply.now) (noted (frame bytes.now) (answer_of number (take 4 reply.now))) (length memory.old)) × (memory.new ≡ note_memory r (frame_can bytes.now reply.now) (noted (frame bytes.now) (answer_of number (take 4 reply.now))) memory.old) }
{
    recorder::note_frame(r, memory, bytes, reply, number)
}

#[unsafe(no_mangle)]
pub extern "C" fn adomvik_note_reading(
    r: Recorder,
    memory: &mut [u8],
    number: u8,
    line: u8,
    chg: u8,
    dsg: u8,
    board: u8,
    cell: u8,
) -> Recorder
    ensures { (result ≡ note_recorder r true (noted reading (answer_of number (line ∷ chg ∷ dsg ∷ board ∷ cell ∷ []))) (length memory.old)) × (memory.new ≡ note_memory r true (noted reading (answer_of number (line ∷ chg ∷ dsg ∷ board ∷ cell ∷ []))) memory.old) }
{
    recorder::note_reading(r, memory, number, [line, chg, dsg, board, cell])
}

#[unsafe(no_mangle)]
pub extern "C" fn adomvik_note_other(r: Recorder) -> Recorder
    ensures { result ≡ note_other r }
{
    recorder::note_other(r)
}

// ---- a recording checked, on a row with a record for each of its boards; the header has it on any row that is long enough

#[unsafe(no_mangle)]
pub extern "C" fn adomvik_check_row(row: &mut [Board], recording: &[u8]) -> Checked
    ensures { (result ≡ check_of row.old recording.now) × (row.new ≡ check_row row.old recording.now) }
{
    replay::check(row, recording)
}
