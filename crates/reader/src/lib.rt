// A recording read from the front where it lies, field by field (02, ticket 11): whether it can be read, and where it stops.
// The fields themselves are read by whoever does the acts again or compares them.
#![tactic(auto)]

ghost use Rattle.std.specs.Prelude.{◌+◌, ◌<◌, ◌≤◌, ◌≡◌, length, drop, MatchResult};
ghost use Rattle.format.specs.Read.{number_in, wrong_long, values_long};
ghost use Rattle.reader.specs.Kinds.{code_of, Decodes};
ghost use Rattle.reader.specs.Reader.{stop, head_stop, board_step, act_step, boards_step, acts_step, read_of};
ghost use Rattle.reader.specs.Told.{number_of, stopped, counted, step_told, read_told};
ghost use Rattle.reader.specs.Way.{answer_step};

// Why reading stops: the bytes end within a field, a field is wrong, or bytes are left behind the last act.
#[derive(Clone, Copy, PartialEq, Eq, Debug)]
pub enum Fault {
    CutShort,
    Wrong,
    LeftOver,
}

// The number that the paper gives it.
impl From<Fault> for u8 {
    ghost from_gives = { λ fault number. number ≡ number_of fault };

    fn from(fault: Fault) -> u8 {
        match fault {
            Fault::CutShort => 17,
            Fault::Wrong => 18,
            Fault::LeftOver => 19,
        }
    }
}

impl Fault {
    fn at(self, at: usize) -> Stop
        ensures { result ≡ stopped self at }
    {
        Stop { fault: self, at }
    }
}

// Where reading stopped: the byte that the fault is told at.
#[derive(Clone, Copy, PartialEq, Eq, Debug)]
pub struct Stop {
    pub fault: Fault,
    pub at: usize,
}

// How many boards and how many acts a recording has.
#[derive(Clone, Copy, PartialEq, Eq, Debug)]
pub struct Counts {
    pub boards: usize,
    pub acts: u32,
}

// What an act is, by the byte that it begins with.
#[derive(Clone, Copy, PartialEq, Eq, Debug)]
pub enum Kind {
    Sample,
    Frame,
    Reading,
}

impl TryFrom<u8> for Kind {
    type Error = Fault;

    ghost try_from_gives = { Decodes };

    fn try_from(code: u8) -> Result<Self, Fault> {
        match code {
            1 => Ok(Kind::Sample),
            2 => Ok(Kind::Frame),
            3 => Ok(Kind::Reading),
            _ => Err(Fault::Wrong),
        }
    }
}

impl Kind {
    fn wrong_long(self, long: u8) -> bool
        ensures { result ≡ wrong_long (code_of self) long }
    {
        match self {
            Kind::Sample => (long < 12) | (long % 2 != 0),
            Kind::Frame => false,
            Kind::Reading => long != 0,
        }
    }

    // The bytes of an answer's values, where its number is this.
    fn values_long(self, number: u8) -> usize
        ensures { result ≡ values_long (code_of self) number }
    {
        if number != 0 {
            return 0;
        }
        match self {
            Kind::Sample => 3,
            Kind::Frame => 4,
            Kind::Reading => 5,
        }
    }
}

// ---- numbers, the lowest byte first; a function for each width, as each gives a type of its own and none is longer than a line

#[tactic(auto, unfolding(format::specs::Read::number_in))]
pub fn byte_at(bytes: &[u8], at: usize) -> u8
    requires { at < length bytes.now }
    ensures { result ≡ number_in 1 (drop at bytes.now) }
{
    bytes[at]
}

#[tactic(auto, unfolding(format::specs::Read::number_in))]
pub fn two_at(bytes: &[u8], at: usize) -> u16
    requires { at + 2 ≤ length bytes.now }
    ensures { result ≡ number_in 2 (drop at bytes.now) }
{
    u16::from_le_bytes([bytes[at], bytes[at + 1]])
}

#[tactic(auto, unfolding(format::specs::Read::number_in))]
pub fn four_at(bytes: &[u8], at: usize) -> u32
    requires { at + 4 ≤ length bytes.now }
    ensures { result ≡ number_in 4 (drop at bytes.now) }
{
    u32::from_le_bytes([bytes[at], bytes[at + 1], bytes[at + 2], bytes[at + 3]])
}

// ---- the header

#[tactic(auto, unfolding(crate::specs::Reader::head_stop, format::specs::Read::head_tests))]
fn head(bytes: &[u8]) -> Result<Counts, Stop>
    ensures { MatchResult result (λ counts. (counts ≡ counted bytes.now) × (stop 0 8 ≡ head_stop bytes.now)) (λ e. step_told (Err e) ≡ head_stop bytes.now) }
{
    if bytes.len() < 2 {
        return Err(Fault::CutShort.at(0));
    }
    if two_at(bytes, 0) != 1 {
        return Err(Fault::Wrong.at(0));
    }
    if bytes.len() < 4 {
        return Err(Fault::CutShort.at(2));
    }
    let boards = two_at(bytes, 2) as usize;
    if (boards < 1) | (16 < boards) {
        return Err(Fault::Wrong.at(2));
    }
    if bytes.len() < 8 {
        return Err(Fault::CutShort.at(4));
    }
    let acts = four_at(bytes, 4);
    Ok(Counts { boards, acts })
}

// ---- a board, and an act, from the byte `at` on: the byte where the next one begins
// The bytes are handed on whole, with the place beside them: it is what a stop tells.

#[tactic(auto, using(crate::proofs::Numbers::fields), unfolding(crate::specs::Reader::board_step, format::specs::Read::board_tests, format::specs::Read::board_in))]
fn board_step(bytes: &[u8], at: usize) -> Result<usize, Stop>
    requires { at ≤ length bytes.now }
    ensures { step_told result ≡ board_step at (drop at bytes.now) }
{
    let left = bytes.len() - at;
    if left < 1 {
        return Err(Fault::CutShort.at(at));
    }
    if 1 < byte_at(bytes, at) {
        return Err(Fault::Wrong.at(at));
    }
    if left < 2 {
        return Err(Fault::CutShort.at(at + 1));
    }
    let cells = byte_at(bytes, at + 1);
    if (cells < 5) | (10 < cells) {
        return Err(Fault::Wrong.at(at + 1));
    }
    Ok(at + 2)
}

// The answer of an act whose body is whole.
#[tactic(auto, unfolding(crate::specs::Way::answer_step))]
fn answer_step(bytes: &[u8], at: usize, kind: Kind, long: usize) -> Result<usize, Stop>
    requires { at + 2 + long ≤ length bytes.now }
    ensures { step_told result ≡ answer_step at (drop at bytes.now) (code_of kind) long }
{
    let left = bytes.len() - at;
    if left < 3 + long {
        return Err(Fault::CutShort.at(at + 2 + long));
    }
    let values = kind.values_long(byte_at(bytes, at + 2 + long));
    if left < 3 + long + values {
        return Err(Fault::CutShort.at(at + 3 + long));
    }
    Ok(at + 3 + long + values)
}

#[tactic(auto, using(crate::proofs::Numbers::fields), unfolding(crate::specs::Reader::act_step, format::specs::Read::act_tests, format::specs::Read::act_long, crate::specs::Way::answer_step))]
pub fn act_step(bytes: &[u8], at: usize) -> Result<usize, Stop>
    requires { at ≤ length bytes.now }
    ensures { step_told result ≡ act_step at (drop at bytes.now) }
{
    let left = bytes.len() - at;
    if left < 1 {
        return Err(Fault::CutShort.at(at));
    }
    let kind = Kind::try_from(byte_at(bytes, at)).map_err(|fault| fault.at(at))?;
    if left < 2 {
        return Err(Fault::CutShort.at(at + 1));
    }
    let long = byte_at(bytes, at + 1);
    if kind.wrong_long(long) {
        return Err(Fault::Wrong.at(at + 1));
    }
    if left < 2 + long as usize {
        return Err(Fault::CutShort.at(at + 2));
    }
    answer_step(bytes, at, kind, long as usize)
}

// ---- so many of them

fn boards_step(bytes: &[u8], boards: usize) -> Result<usize, Stop>
    requires { 8 ≤ length bytes.now }
    ensures { step_told result ≡ boards_step boards 8 (drop 8 bytes.now) }
{
    let mut at = 8;
    for _ in 0..boards {
        at = board_step(bytes, at)?;
    }
    Ok(at)
}

// And nothing behind the last of them.
fn acts_step(bytes: &[u8], from: usize, acts: u32) -> Result<usize, Stop>
    requires { from ≤ length bytes.now }
    ensures { step_told result ≡ acts_step acts from (drop from bytes.now) }
{
    let mut at = from;
    for _ in 0..acts {
        at = act_step(bytes, at)?;
    }
    if at < bytes.len() {
        return Err(Fault::LeftOver.at(at));
    }
    Ok(at)
}

// ---- the whole

pub fn read_back(bytes: &[u8]) -> Result<Counts, Stop>
    ensures { read_told (length bytes.now) result ≡ read_of bytes.now }
{
    let counts = head(bytes)?;
    let listed = boards_step(bytes, counts.boards)?;
    acts_step(bytes, listed, counts.acts)?;
    Ok(counts)
}
