// A stack that a program holds: its boards, of which the row is lent to the public library for one act.
#![tactic(auto)]

ghost use Rattle.std.specs.Prelude.{◌≡◌, ◌≤◌};
ghost use Rattle.held.specs.Held.{no_stack, open_of, started, row_count, sampled_of, framed_of, framed_buffer, read_of};

use board::{Board, Readings, Sampled};
use frame::Reply;
use reading::Whole;
use refusal::Refusal;

// The first so many boards are the stack's own. Their number stands beside an array of as many as a stack may have, since memory is
// fixed.
#[derive(Clone, Copy)]
pub struct Stack {
    pub boards: [Board; 16],
    pub count: usize,
}

impl Stack {
    // Without boards, so that every act is refused.
    pub fn none() -> Stack
        ensures { result ≡ no_stack }
    {
        Stack {
            boards: [board::fresh_board(0); 16],
            count: 0,
        }
    }

    // The cell count of each stand-alone board, southernmost first, gives the stack.
    pub fn open(counts: &[u32]) -> Result<Stack, Refusal>
        ensures { result ≡ started (open_of counts.now) }
    {
        let n = counts.len();
        if 16 < n {
            return Err(Refusal::BadRow);
        }
        let mut boards = Stack::none().boards;
        stack::open_counts(&mut boards[..n], counts)?;
        Ok(Stack { boards, count: n })
    }

    // How many records are the row. One of more than 16 boards is no row: then none are, and every act is refused with 1.
    #[tactic(auto, unfolding(crate::specs::Held::row_count))]
    pub fn row_count(&self) -> usize
        ensures count { result ≡ row_count self.now }
        ensures within { result ≤ 16 }
    {
        if 16 < self.count { 0 } else { self.count }
    }

    // A sample of a board of the stack.
    #[tactic(auto, unfolding(crate::specs::Held::sampled_of))]
    pub fn sample(&mut self, board: u32, x: Readings, mv: &[u32]) -> Result<Sampled, Refusal>
        ensures { (result ≡ (sampled_of self.old board x mv.now).answer) × (self.new ≡ (sampled_of self.old board x mv.now).stack) }
    {
        let n = self.row_count();
        stack::sample_stack(&mut self.boards[..n], board, x, mv)
    }

    // A frame to the stack; the reply is put into the buffer too.
    #[tactic(auto, unfolding(crate::specs::Held::framed_of, crate::specs::Held::framed_buffer))]
    pub fn frame(&mut self, bytes: &[u8], reply: &mut [u8]) -> Result<Reply, Refusal>
        ensures { (result ≡ (framed_of self.old bytes.now reply.old).answer) × ((self.new ≡ (framed_of self.old bytes.now reply.old).stack) × (reply.new ≡ framed_buffer self.old bytes.now reply.old)) }
    {
        let n = self.row_count();
        stack::frame_stack(&mut self.boards[..n], bytes, reply)
    }

    // The whole-stack reading.
    #[tactic(auto, unfolding(crate::specs::Held::read_of))]
    pub fn read(&self) -> Result<Whole, Refusal>
        ensures { result ≡ read_of self.now }
    {
        stack::read_stack(&self.boards[..self.row_count()])
    }
}
