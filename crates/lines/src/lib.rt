// Lines of the bench (01, The bench program): a line's bytes taken apart into a letter and numbers, or malformed; and lines out
// of blocks of bytes, where one ends and what is kept of one that a block cuts in two.
#![tactic(auto)]

ghost use Rattle.std.specs.Prelude.{◌≡◌, ◌+◌, ◌≤◌, ◌==◌, get_or, length, drop, position};
ghost use Rattle.lines.specs.Lines.{up_to};
ghost use Rattle.lines.specs.Line.{letter, rules_of, malformed};
ghost use Rattle.lines.specs.Way.{held, nothing, emptied_of, Kept, one_line, Ended, rest_at, end_at, digits_from, number_at, field_at, found_at};

// A line's kind; one that is malformed is a line too, by the contract of line_at and the definitions of what it says (malformed) and how it is
// answered (line_by of session): an Option around the others would take both apart.
#[derive(Clone, Copy)]
pub enum Kind {
    Open,
    Sample,
    Frame,
    Read,
    Malformed,
}

// What follows a letter: how many fields must stand, how many may, and how large their numbers may be.
#[derive(Clone, Copy)]
struct Rules {
    head: usize,
    most: usize,
    largest: u32,
}

// As many numbers as count says, the first 21 of them kept, with zeros behind them (fixed memory: a line may have more than are
// kept, so the count is no slice's length); minus says that the shunt is negative: the other numbers have no sign, and all stand in one array.
#[derive(Clone, Copy)]
pub struct Line {
    pub kind: Kind,
    pub minus: bool,
    pub count: usize,
    pub numbers: [u32; 21],
}

// A line, and the place where it ends: that of its newline, or the end of the bytes.
#[derive(Clone, Copy)]
pub struct Found {
    pub line: Line,
    pub end: usize,
}

// A number with or without its minus sign, as it goes into a line, and the place behind it.
#[derive(Clone, Copy)]
struct Number {
    minus: bool,
    size: u32,
    next: usize,
}

// The first bytes of a line that has not ended. A line is at most 200 bytes long, so 201 are enough to know one that is too long;
// one place more is for its newline. Memory is fixed, so how many are kept stands beside their places.
#[derive(Clone, Copy)]
pub struct Cutter {
    pub bytes: [u8; 202],
    pub len: usize,
}

// ---- one line

// The kind of line that a letter begins.
impl From<u8> for Kind {
    ghost from_gives = { λ b kind. kind ≡ letter b };

    #[tactic(auto, unfolding(crate::specs::Line::letter))]
    fn from(b: u8) -> Kind {
        match b {
            b'O' => Kind::Open,
            b'S' => Kind::Sample,
            b'F' => Kind::Frame,
            b'R' => Kind::Read,
            _ => Kind::Malformed,
        }
    }
}

// The table of rules, one row for each kind.
fn rules_of(k: Kind) -> Rules
    ensures { result ≡ rules_of k }
{
    let largest = 2147483647;
    match k {
        Kind::Open => Rules {
            head: 0,
            most: 100,
            largest,
        },
        Kind::Sample => Rules {
            head: 5,
            most: 21,
            largest,
        },
        Kind::Frame => Rules {
            head: 0,
            most: 16,
            largest: 255,
        },
        Kind::Read | Kind::Malformed => Rules {
            head: 0,
            most: 0,
            largest,
        },
    }
}

// ---- fields: a place in the bytes beside them, as in the contract of line_at: what is left of the bytes would be no plainer, since where a line ends is told

// The byte at a place; behind the last one a newline, since the end of the bytes ends a line too.
fn byte_at(s: &[u8], at: usize) -> u8
    ensures { result ≡ get_or s.now at 10 }
{
    s.get(at).copied().unwrap_or(b'\n')
}

// The number whose first digits come to v: the digits behind them, read once. A loop by hand, as the place where it ends is told too.
fn digits_from(s: &[u8], at: usize, largest: u32, minus: bool, v: u32) -> Option<Number>
    requires { v ≤ largest }
    ensures { result ≡ digits_from largest minus at v (rest_at s.now at) }
{
    // ten times the largest number and a digit more still fit
    let top = u64::from(largest);
    let mut sum = u64::from(v);
    let mut next = at;
    loop {
        let b = byte_at(s, next);
        if !b.is_ascii_digit() {
            return Some(Number {
                minus,
                size: sum as u32,
                next,
            });
        }
        sum = sum * 10 + u64::from(b - b'0');
        if top < sum {
            return None;
        }
        next += 1;
    }
}

// The number that begins here. A 0 has no digit behind it, and no minus sign in front.
fn number_at(s: &[u8], at: usize, largest: u32, minus: bool) -> Option<Number>
    requires { 9 ≤ largest }
    ensures { result ≡ number_at largest minus at (rest_at s.now at) }
{
    let first = byte_at(s, at);
    if first == b'0' {
        if minus {
            return None;
        }
        return Some(Number {
            minus: false,
            size: 0,
            next: at + 1,
        });
    }
    if first.is_ascii_digit() {
        return digits_from(s, at + 1, largest, minus, u32::from(first - b'0'));
    }
    None
}

// The field that begins here; a minus sign only where one may stand. Its word has to end behind it, which line_at sees.
fn field_at(s: &[u8], at: usize, largest: u32, signed: bool) -> Option<Number>
    requires { 9 ≤ largest }
    ensures { result ≡ field_at largest signed at (rest_at s.now at) }
{
    if byte_at(s, at) != b'-' {
        return number_at(s, at, largest, false);
    }
    if signed {
        return number_at(s, at + 1, largest, true);
    }
    None
}

// ---- lines

// A malformed line, which says nothing else, that is read up to this place.
fn malformed_from(s: &[u8], at: usize) -> Found
    ensures { result ≡ record { line = malformed; end = end_at s.now at } }
{
    Found {
        line: Line {
            kind: Kind::Malformed,
            minus: false,
            count: 0,
            numbers: [0; 21],
        },
        end: line_end(s, at),
    }
}

// The line that begins here: a letter, and behind each space a field, up to the newline. One of more than 200 bytes is malformed.
// A loop by hand: each field says where the next begins.
pub fn line_at(s: &[u8], start: usize) -> Found
    ensures { result ≡ found_at s.now start }
{
    let first = byte_at(s, start);
    if first == b'\n' {
        return malformed_from(s, start);
    }
    let kind = Kind::from(first);
    let rules = rules_of(kind);
    let mut numbers = [0; 21];
    let mut minus = false;
    let mut n = 0;
    let mut at = start + 1;
    loop {
        let b = byte_at(s, at);
        if b != b' ' {
            if (b != b'\n') | (n < rules.head) | (200 < at - start) {
                return malformed_from(s, at);
            }
            return Found {
                line: Line {
                    kind,
                    minus,
                    count: n,
                    numbers,
                },
                end: at,
            };
        }
        if rules.most <= n {
            return malformed_from(s, at);
        }
        let Some(number) = field_at(s, at + 1, rules.largest, n + 1 == rules.head) else {
            return malformed_from(s, at);
        };
        if n < 21 {
            numbers[n] = number.size;
        }
        minus |= number.minus;
        n += 1;
        at = number.next;
    }
}

fn first_newline(s: &[u8]) -> Option<usize>
    ensures { result ≡ position (λ b. b == 10) s.now }
{
    s.iter().position(|b| *b == b'\n')
}

// The place of the first newline from at on, or the end, as its contract has it (docs/TRACE.md): the end of the bytes ends a line too.
pub fn line_end(s: &[u8], at: usize) -> usize
    ensures { result ≡ at + length (up_to (drop at s.now)) }
{
    let rest = s.get(at..).unwrap_or(&[]);
    at + first_newline(rest).unwrap_or(rest.len())
}

// ---- lines out of blocks

impl Cutter {
    pub fn new() -> Cutter
        ensures { result ≡ nothing }
    {
        Cutter {
            bytes: [0; 202],
            len: 0,
        }
    }

    // Nothing kept; the old bytes need no clearing.
    pub fn clear(&mut self)
        ensures { self.new ≡ emptied_of self.old }
    {
        self.len = 0;
    }

    // Keeps s behind what is kept, as far as there is room.
    pub fn keep(&mut self, s: &[u8])
        ensures { Kept self.old s.now self.new }
    {
        if self.len < 201 {
            let len = self.len;
            let more = s.len().min(201 - len);
            self.bytes[len..len + more].copy_from_slice(&s[..more]);
            self.len = len + more;
        }
    }

    // How many bytes are kept.
    pub fn kept_len(&self) -> usize
        ensures { result ≡ length (held self.now) }
    {
        self.len.min(201)
    }

    // How many of them make a line: none where a newline is among them, since such bytes are no line, and no more is an empty one.
    fn one_len(&self) -> usize
        ensures { result ≡ length (one_line self.now) }
    {
        let len = self.kept_len();
        if line_end(&self.bytes[..len], 0) < len {
            0
        } else {
            len
        }
    }

    // What is kept as a block of one line, with the newline that ends it.
    pub fn end_line(&mut self)
        ensures { Ended self.old self.new }
    {
        let len = self.one_len();
        self.bytes[len] = b'\n';
        self.len = len + 1;
    }
}
