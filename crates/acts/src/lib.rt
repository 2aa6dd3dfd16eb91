// An act on a stack's row as plain data, the act done in place on a lent row, and what is told of it (01, The bench program).
// Crates above make acts, of lines or of what was recorded, and print or compare what is told.
#![tactic(auto)]

ghost use Rattle.std.specs.Prelude.{◌≡◌};
ghost use Rattle.acts.specs.InPlace.{sampled, framed, sample_after, frame_after, act_told, act_row};

use board::{Board, Readings, Sampled};
use frame::Reply;
use reading::Whole;
use refusal::Refusal;

// What is told of an accepted act, or of an opening that is not refused.
#[derive(Clone, Copy, Debug, PartialEq, Eq)]
pub enum Told {
    Opened,
    Status(Sampled),
    Reply(Reply),
    Reading(Whole),
}

// A sample: its board, what was read, the first 16 cells, and how many it has.
// Memory is fixed and an act stands by itself, so cells and bytes have their places in it.
#[derive(Clone, Copy)]
pub struct Sample {
    pub board: u32,
    pub readings: Readings,
    pub cells: [u32; 16],
    pub count: usize,
}

// A frame: its first 16 bytes, how many it has, and how many bytes are lent for its reply.
#[derive(Clone, Copy)]
pub struct Frame {
    pub bytes: [u8; 16],
    pub count: usize,
    pub room: usize,
}

// Cells and bytes past 16, and bytes lent past four, change no answer and no row (the laws cells-enough, bytes-enough and room-enough).
#[derive(Clone, Copy)]
pub enum Act {
    Sample(Sample),
    Frame(Frame),
    Reading,
}

fn sample_row(row: &mut [Board], s: Sample) -> Result<Told, Refusal>
    ensures { (result ≡ sampled row.old s) × (row.new ≡ sample_after row.old s) }
{
    let cells = s.cells;
    let n = s.count.min(16);
    let answer = stack::sample_stack(row, s.board, s.readings, &cells[..n])?;
    Ok(Told::Status(answer))
}

// A reply has four bytes, and no byte past these is ever written.
fn frame_row(row: &mut [Board], f: Frame) -> Result<Told, Refusal>
    ensures { (result ≡ framed row.old f) × (row.new ≡ frame_after row.old f) }
{
    let bytes = f.bytes;
    let n = f.count.min(16);
    let mut reply = [0; 4];
    let room = f.room.min(4);
    let answer = stack::frame_stack(row, &bytes[..n], &mut reply[..room])?;
    Ok(Told::Reply(answer))
}

// An act on a lent row. A reading changes nothing.
#[tactic(auto, unfolding(crate::specs::InPlace::act_told, crate::specs::InPlace::act_row))]
pub fn act_row(row: &mut [Board], a: Act) -> Result<Told, Refusal>
    ensures { (result ≡ act_told row.old a) × (row.new ≡ act_row row.old a) }
{
    match a {
        Act::Sample(s) => sample_row(row, s),
        Act::Frame(f) => frame_row(row, f),
        Act::Reading => {
            let whole = stack::read_stack(row)?;
            Ok(Told::Reading(whole))
        }
    }
}
