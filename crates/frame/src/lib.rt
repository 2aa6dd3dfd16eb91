// One frame: the check byte, taking a frame apart, and putting the reply into the lent buffer (01, Frames and registers).
#![tactic(auto)]

ghost use Rattle.std.specs.Prelude.{◌≤◌, ◌≡◌, [], ◌∷◌, length};
ghost use Rattle.frame.specs.Check.{checked, check_of};
ghost use Rattle.frame.specs.Way.{FourShifts, half_next, check_moved, taken_apart, reply_by, reply_of, buffer_with};

use refusal::Refusal;

// What four shifts make of each half byte, moved to the upper half of a byte.
const FOUR_SHIFTS: [u8; 16] = [0, 7, 14, 9, 28, 27, 18, 21, 56, 63, 54, 49, 36, 35, 42, 45];

// The table of the check. A constant is laid out wherever it is named, and an array copied wherever it is taken by value: so it is
// asked for once and lent from there on.
fn four_shifts() -> [u8; 16]
    ensures { FourShifts result }
{
    FOUR_SHIFTS
}

// Four shifts by the table: the lower half of the register moves up, and the upper one is looked up.
fn half_next(table: &[u8; 16], r: u8) -> u8
    ensures { result ≡ half_next table.now r }
{
    (r % 16 * 16) ^ table[r as usize / 16]
}

// The check over one byte more: eight shifts are two halves.
fn check_next(table: &[u8; 16], r: u8, byte: u8) -> u8
    requires { FourShifts table.now }
    ensures { result ≡ checked r byte }
{
    let half = half_next(table, r ^ byte);
    half_next(table, half)
}

// The check byte over the bytes of a list, first to last.
pub fn check_all(bytes: &[u8]) -> u8
    ensures { result ≡ check_of bytes.now }
{
    let table = four_shifts();
    let mut r = 0;
    for byte in bytes {
        r = check_next(&table, r, *byte);
    }
    r
}

// The check byte over the first three bytes of a frame or a reply: three numbers, for which `check_all` would want an array laid out.
pub fn check_byte(address: u8, register: u8, value: u8) -> u8
    ensures { result ≡ check_of (address ∷ register ∷ value ∷ []) }
{
    let table = four_shifts();
    let first = check_next(&table, 0, address);
    let second = check_next(&table, first, register);
    check_next(&table, second, value)
}

// What a frame asks of its board.
#[derive(Clone, Copy, Debug, PartialEq, Eq)]
pub struct Request {
    pub address: u8,
    pub register: u8,
    pub value: u8,
}

// A frame taken apart: what it asks, and its check.
#[derive(Clone, Copy, Debug, PartialEq, Eq)]
pub struct Taken {
    pub request: Request,
    pub check: u8,
}

// The four bytes of a reply.
#[derive(Clone, Copy, Debug, PartialEq, Eq)]
pub struct Reply {
    pub address: u8,
    pub register: u8,
    pub value: u8,
    pub check: u8,
}

// A frame taken apart, where the lent buffer has room for so many bytes, or why it is refused as it stands, before any board is asked.
pub fn take_apart(frame: &[u8], room: usize) -> Result<Taken, Refusal>
    ensures { result ≡ taken_apart frame.now room }
{
    let [address, register, value, check] = *frame else {
        return Err(Refusal::FrameLength);
    };
    if room < 4 {
        return Err(Refusal::ReplyRoom);
    }
    if check != check_byte(address, register, value) {
        return Err(Refusal::CheckByte);
    }
    let request = Request {
        address,
        register,
        value,
    };
    Ok(Taken { request, check })
}

// The check of a frame whose value becomes another: the two bytes before it need not be gone through again, and an echo is as it came.
fn check_moved(check: u8, old: u8, new: u8) -> u8
    ensures { result ≡ check_moved check old new }
{
    if old == new {
        return check;
    }
    let table = four_shifts();
    check ^ check_next(&table, old, new)
}

// The reply to a frame that its board accepts, by the value that it carries: it repeats the first two bytes.
fn reply_by(taken: Taken, value: u8) -> Reply
    ensures { result ≡ reply_by taken value }
{
    let asked = taken.request;
    Reply {
        address: asked.address,
        register: asked.register,
        value,
        check: check_moved(taken.check, asked.value, value),
    }
}

// The reply to a frame, by what its board makes of it, in the first four bytes of the buffer, place by place as its definition
// has them; a refusal leaves all of it.
pub fn put(buffer: &mut [u8], taken: Taken, outcome: Result<u8, Refusal>) -> Result<Reply, Refusal>
    requires { 4 ≤ length buffer.old }
    ensures { (result ≡ reply_of taken outcome) × (buffer.new ≡ buffer_with buffer.old (reply_of taken outcome)) }
{
    let value = outcome?;
    let reply = reply_by(taken, value);
    buffer[0] = reply.address;
    buffer[1] = reply.register;
    buffer[2] = reply.value;
    buffer[3] = reply.check;
    Ok(reply)
}
