// A session of the bench: blocks of input in, the text of the answers out (01, The bench program).
#![tactic(auto)]

ghost use Rattle.std.specs.Prelude.{◌≡◌, ◌≤◌, length};
ghost use Rattle.held.specs.Held.{no_stack};
ghost use Rattle.lines.specs.Way.{held, nothing};
ghost use Rattle.text.specs.Text.{by_number};
ghost use Rattle.session.specs.LineActs.{shunt_of, bytes_of, sample_of, frame_of, opens, acted_on, answered};
ghost use Rattle.session.specs.Way.{Answered, Completed};
ghost use Rattle.session.specs.Session.{Run, lacking, fed};

use acts::{Act, Frame, Sample, Told};
use board::Readings;
use held::Stack;
use lines::{Cutter, Kind, Line};
use refusal::Refusal;

// The line that is open, and the stack.
#[derive(Clone, Copy)]
pub struct Session {
    pub cutter: Cutter,
    pub stack: Stack,
}

// How many bytes of a block were used, and how many were written.
#[derive(Clone, Copy)]
pub struct Fed {
    pub used: usize,
    pub wrote: usize,
}

// ---- a line as an act

// A line's number is at most 2,147,483,647; one that is not would be cut down to that.
fn shunt_of(minus: bool, size: u32) -> i32
    ensures { result ≡ shunt_of minus size }
{
    let size = size.min(2147483647) as i32;
    if minus { 0 - size } else { size }
}

fn sample_of(line: &Line) -> Sample
    ensures { result ≡ sample_of line.now }
{
    let [board, elapsed, load, thermistor, shunt, ..] = line.numbers;
    let mut cells = [0; 16];
    cells.copy_from_slice(&line.numbers[5..]);
    Sample {
        board,
        readings: Readings {
            elapsed,
            shunt: shunt_of(line.minus, shunt),
            thermistor,
            load,
        },
        cells,
        count: line.count.saturating_sub(5),
    }
}

fn bytes_of(numbers: &[u32; 21]) -> [u8; 16]
    ensures { result ≡ bytes_of numbers.now }
{
    let mut bytes = [0; 16];
    for (i, byte) in bytes.iter_mut().enumerate() {
        *byte = (numbers[i] % 256) as u8;
    }
    bytes
}

// The bench lends four bytes for a reply.
fn frame_of(line: &Line) -> Frame
    ensures { result ≡ frame_of line.now }
{
    Frame {
        bytes: bytes_of(&line.numbers),
        count: line.count,
        room: 4,
    }
}

// ---- a line on a stack

// A good opening replaces the stack, a refused one leaves it.
fn open_line(stack: &mut Stack, line: &Line) -> Result<Told, Refusal>
    ensures { (result ≡ (opens stack.old line.now).told) × (stack.new ≡ (opens stack.old line.now).stack) }
{
    *stack = Stack::open(&line.numbers[..line.count.min(21)])?;
    Ok(Told::Opened)
}

#[tactic(auto, unfolding(crate::specs::LineActs::acted_on))]
fn act_on(stack: &mut Stack, act: Act) -> Result<Told, Refusal>
    ensures { (result ≡ (acted_on stack.old act).told) × (stack.new ≡ (acted_on stack.old act).stack) }
{
    let n = stack.row_count();
    acts::act_row(&mut stack.boards[..n], act)
}

fn answer(stack: &mut Stack, line: &Line) -> Result<Told, Refusal>
    ensures { (result ≡ (answered stack.old line.now).told) × (stack.new ≡ (answered stack.old line.now).stack) }
{
    match line.kind {
        Kind::Open => open_line(stack, line),
        Kind::Sample => act_on(stack, Act::Sample(sample_of(line))),
        Kind::Frame => act_on(stack, Act::Frame(frame_of(line))),
        Kind::Read => act_on(stack, Act::Reading),
        Kind::Malformed => Err(Refusal::Malformed),
    }
}

// What is told, as it is printed.
fn by_number(told: Result<Told, Refusal>) -> Result<Told, u8>
    ensures { result ≡ by_number told }
{
    told.map_err(u8::from)
}

// The lines that end in the block are answered one after the other, their texts put from a place on, while there is room for one
// more: 32 bytes, the most that a text takes. A loop by hand: each line says where the next begins. The place stands beside the buffer, as
// in put_told.
fn answer_lines(stack: &mut Stack, block: &[u8], from: usize, out: &mut [u8]) -> Fed
    requires { from ≤ length out.old }
    ensures { Answered stack.old block.now from out.old out.new stack.new result }
{
    let mut fed = Fed {
        used: 0,
        wrote: from,
    };
    while 32 <= out.len() - fed.wrote {
        let found = lines::line_at(block, fed.used);
        if block.len() <= found.end {
            break;
        }
        let told = answer(stack, &found.line);
        fed.wrote = text::put_told(out, fed.wrote, by_number(told));
        fed.used = found.end + 1;
    }
    fed
}

// ---- lines out of blocks

impl Session {
    // Nothing is kept, and the stack has no boards.
    pub fn new() -> Session
        ensures { result ≡ record { cutter = nothing; stack = no_stack } }
    {
        Session {
            cutter: Cutter::new(),
            stack: Stack::none(),
        }
    }

    // A line whose beginning is kept: where it ends in the block it is put together in the cutter's places and answered as a block of
    // one line.
    fn complete_line(&mut self, block: &[u8], out: &mut [u8]) -> Fed
        requires { 32 ≤ length out.old }
        ensures { Completed self.old block.now out.old out.new self.new result }
    {
        if self.cutter.kept_len() == 0 {
            return Fed { used: 0, wrote: 0 };
        }
        let end = lines::line_end(block, 0);
        self.cutter.keep(&block[..end]);
        if block.len() <= end {
            return Fed {
                used: end,
                wrote: 0,
            };
        }
        self.cutter.end_line();
        let line = &self.cutter.bytes[..self.cutter.len];
        let whole = answer_lines(&mut self.stack, line, 0, out);
        self.cutter.clear();
        Fed {
            used: end + 1,
            wrote: whole.wrote,
        }
    }

    // The lines that end in the block are answered one after the other, until it is used up or out has no room for one more text.
    pub fn feed(&mut self, block: &[u8], out: &mut [u8]) -> Fed
        ensures { Run self.old.cutter self.old.stack block.now out.old out.new (fed self.new result) }
    {
        if out.len() < 32 {
            return Fed { used: 0, wrote: 0 };
        }
        let first = self.complete_line(block, out);
        if block.len() <= first.used {
            return first;
        }
        let rest = answer_lines(&mut self.stack, &block[first.used..], first.wrote, out);
        let end = first.used + rest.used;
        if out.len() - rest.wrote < 32 {
            return Fed {
                used: end,
                wrote: rest.wrote,
            };
        }
        self.cutter.keep(&block[end..]);
        Fed {
            used: block.len(),
            wrote: rest.wrote,
        }
    }

    // At the end of the input a last line that lacks its newline is fed one.
    pub fn finish(&mut self, out: &mut [u8]) -> Fed
        ensures { Run self.old.cutter self.old.stack (lacking (held self.old.cutter)) out.old out.new (fed self.new result) }
    {
        if self.cutter.kept_len() == 0 {
            return Fed { used: 0, wrote: 0 };
        }
        self.feed(b"\n", out)
    }
}
