// The line that answers an act, put into a lent buffer (01, The bench program).
#![tactic(auto)]

ghost use Rattle.std.specs.Prelude.{◌≡◌, [], List, ℕ, ◌∷◌, ◌++◌, ◌+◌, ◌<◌, ◌≤◌, length, take};
ghost use Rattle.lists.specs.Marks.{bit};
ghost use Rattle.puts.specs.Put.{Put};
ghost use Rattle.text.specs.Text.{digit, decimal, words_of};
ghost use Rattle.text.specs.Way.{placed};

use acts::Told;
use std::marker::Model;

// What is written of a line, which has 32 bytes at most; since memory is fixed its length stands beside, and contracts see a list.
#[derive(Drop)]
struct Written {
    bytes: [u8; 32],
    len: usize,
}

impl Model for Written {
    ghost Value = { List ℕ };

    ghost view = { λ w. take w.len w.bytes };

    ghost invariant = { λ w. w.len ≤ 32 };
}

impl Written {
    fn new() -> Written
        ensures { result ≡ [] }
    {
        Written {
            bytes: [0; 32],
            len: 0,
        }
    }

    fn as_slice(&self) -> &[u8]
        ensures { result.now ≡ self.now }
    {
        &self.bytes[..self.len]
    }

    fn word(&mut self, word: &[u8])
        requires { length self.old + length word.now ≤ 32 }
        ensures { self.new ≡ self.old ++ word.now }
    {
        let end = self.len + word.len();
        self.bytes[self.len..end].copy_from_slice(word);
        self.len = end;
    }

    // By hand, as the number that it is a digit of.
    fn digit(&mut self, d: u16)
        requires { (length self.old + 1 ≤ 32) × (d < 10) }
        ensures { self.new ≡ self.old ++ digit d ∷ [] }
    {
        self.bytes[self.len] = b'0' + d as u8;
        self.len += 1;
    }

    // The decimal digits of n, five at most: a place that n does not reach has none, and the last one always. By hand, since there is no
    // heap and the digits go straight into the line's places.
    fn number(&mut self, n: u16)
        requires { length self.old + 5 ≤ 32 }
        ensures put { self.new ≡ self.old ++ decimal n }
        ensures upper_bound { length self.new ≤ length self.old + 5 }
    {
        for place in [10000, 1000, 100, 10] {
            if place <= n {
                self.digit(n / place % 10);
            }
        }
        self.digit(n % 10);
    }

    fn field(&mut self, word: &[u8], n: u16)
        requires { length self.old + length word.now + 5 ≤ 32 }
        ensures put { self.new ≡ self.old ++ (word.now ++ decimal n) }
        ensures upper_bound { length self.new ≤ length self.old + length word.now + 5 }
    {
        self.word(word);
        self.number(n);
    }

    // A field of one digit, and no field of the number 1 or 0: with room for five digits at each flag a reading would not fit 32 bytes.
    fn flag(&mut self, word: &[u8], flag: bool)
        requires { length self.old + length word.now + 1 ≤ 32 }
        ensures put { self.new ≡ self.old ++ (word.now ++ decimal (bit flag)) }
        ensures upper_bound { length self.new ≤ length self.old + length word.now + 1 }
    {
        self.word(word);
        self.digit(u16::from(flag));
    }
}

// The words of an answer.
#[tactic(auto, using(std::proofs::Common::append_assoc), unfolding(crate::specs::Text::words_of))]
fn words_of(told: Result<Told, u8>) -> Written
    ensures put { result ≡ words_of told }
    ensures upper_bound { length result ≤ 31 }
{
    let mut words = Written::new();
    match told {
        Ok(Told::Opened) => words.word(b"ok"),
        Ok(Told::Status(answer)) => {
            words.field(b"st ", u16::from(answer.status));
            words.field(b" bal ", answer.bled);
        }
        Ok(Told::Reply(reply)) => {
            words.field(b"re ", u16::from(reply.address));
            words.field(b" ", u16::from(reply.register));
            words.field(b" ", u16::from(reply.value));
            words.field(b" ", u16::from(reply.check));
        }
        Ok(Told::Reading(whole)) => {
            words.flag(b"ln ", whole.line);
            words.flag(b" chg ", whole.chg);
            words.flag(b" dsg ", whole.dsg);
            words.field(b" at ", u16::from(whole.flagged.board));
            words.field(b" ", u16::from(whole.flagged.cell));
        }
        Err(n) => words.field(b"no ", u16::from(n)),
    }
    words
}

// The line of an answer, and the place after it; where 32 bytes are not free from at on, nothing, and at. A refusal comes as its number,
// since the law that no two answers print alike (text-apart) is of every byte. The place stands beside the buffer, as in put_bytes: what is
// promised is said of the whole of it (placed, and the law put-none).
pub fn put_told(out: &mut [u8], at: usize, told: Result<Told, u8>) -> usize
    ensures { Put at (placed (length out.old) at told) out.old out.new result }
{
    if out.len() < 32 || out.len() - 32 < at {
        return at;
    }
    let mut line = words_of(told);
    line.word(b"\n");
    puts::put_bytes(out, at, line.as_slice())
}
