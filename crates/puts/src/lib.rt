// Bytes put into a lent buffer, one text after the other: lines of answers and recordings are written so.
#![tactic(auto)]

ghost use Rattle.std.specs.Prelude.{◌+◌, ◌≤◌, length};
ghost use Rattle.puts.specs.Put.{Put};

// Puts s into out from at on, and gives the place after it. The place stands beside the memory, and no rest of it is lent, since what is promised is
// said of the whole memory. Byte by byte, since the library's copy asks each time whether the two places overlap: a recording took a third to a
// half more instructions on small controllers (docs/PERFORMANCE.md).
pub fn put_bytes(out: &mut [u8], at: usize, s: &[u8]) -> usize
    requires { at + length s.now ≤ length out.old }
    ensures { Put at s.now out.old out.new result }
{
    for (i, byte) in s.iter().enumerate() {
        out[at + i] = *byte;
    }
    at + s.len()
}
