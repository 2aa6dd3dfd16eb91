// The bench: lines from standard input, an answer for each on standard output (01, The bench program).
#![tactic(auto)]

ghost use Rattle.std.specs.Prelude.{◌≤◌, length};

use session::Session;
use std::io;
use std::io::{Read, Write};

// Feeds a block and writes its answers out, in more than one go where out is too small for all of them. A loop by hand: each go says how much of
// the block it used.
fn block_in<W: Write>(
    session: &mut Session,
    block: &[u8],
    out: &mut [u8],
    to: &mut W,
) -> io::Result<()>
    requires { 32 ≤ length out.old }
{
    let mut at = 0;
    while at < block.len() {
        let fed = session.feed(&block[at..], out);
        to.write_all(&out[..fed.wrote])?;
        at += fed.used;
    }
    Ok(())
}

// Every block's complete lines are answered before the next is read. The session begins with a stack without boards.
// It is a loop with a bound that no input reaches. An output that takes no more ends it quietly, a read that fails by its error.
fn main(rt: HostRuntime) -> io::Result<()> {
    let mut from = rt.stdin();
    let mut to = rt.stdout();
    let mut input = [0u8; 65536];
    let mut out = [0u8; 65536];
    let mut session = Session::new();
    for _ in 0..u64::MAX {
        let n = from.read(&mut input)?;
        if n == 0 {
            let last = session.finish(&mut out);
            let _ = to.write_all(&out[..last.wrote]);
            return Ok(());
        }
        if block_in(&mut session, &input[..n], &mut out, &mut to).is_err() {
            return Ok(());
        }
    }
    Ok(())
}
