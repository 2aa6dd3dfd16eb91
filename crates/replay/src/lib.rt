// A recording checked (02, ticket 11): the boards opened by their kinds on a lent row, the acts done again one by one, and the
// first that was answered otherwise told.
#![tactic(auto)]

ghost use Rattle.std.specs.Prelude.{◌+◌, ◌*◌, ◌/◌, ◌<◌, ◌≤◌, min, ◌≡◌, map, length, take, drop, unwrap_or};
ghost use Rattle.format.specs.Read.{numbers_in, pairs_in, kind_in, boards_from, widths_by, values_long, answer_in, acts_from};
ghost use Rattle.reader.specs.Kinds.{code_of};
ghost use Rattle.reader.specs.Reader.{acts_step};
ghost use Rattle.stack.specs.Open.{open_answer, open_row};
ghost use Rattle.replay.specs.Check.{plan_by, wrong_after, row_after, check_of, check_row};
ghost use Rattle.replay.specs.Way.{front, sample_in, frame_in, act_in, places, padded, told_said, held, IsWhole};

use acts::{Act, Frame, Sample, Told};
use board::{Board, Readings};
use reader::Kind;
use refusal::Refusal;

// What a check tells: number 0, and 0 or the place of the first wrong act, from 1; or the number of a refusal, and the byte that it is
// told at (17, 18, 19), or how many records the row must have (1). C has it so, as a record of these two.
#[repr(C)]
#[derive(Clone, Copy)]
pub struct Checked {
    pub place: u32,
    pub number: u8,
}

// An answer: the values of an accepted act with zeros behind, or the number of a refusal, a byte, since a recording may hold any.
type Answer = Result<[u16; 5], u8>;

// ---- an act, from the byte on where it begins
// Cells past the sixteenth, and bytes, change no answer: only how many there are counts (acts).
// Cells, bytes and plans (plans_at) are each the first sixteen with zeros behind, and no one function: bytes are copied as they lie, a cell is read from
// two of them and a plan made of two, so it would take a closure, and at each call that one's requires and clause, longer than these bodies.

fn cells_in(rest: &[u8]) -> [u32; 16]
    ensures { result ≡ front (length rest.now / 2) (pairs_in (length rest.now / 2) rest.now) }
{
    let mut cells = [0; 16];
    let few = (rest.len() / 2).min(16);
    for (i, cell) in cells[..few].iter_mut().enumerate() {
        *cell = reader::two_at(rest, 2 * i) as u32;
    }
    cells
}

fn bytes_in(body: &[u8]) -> [u8; 16]
    ensures { result ≡ front (length body.now) body.now }
{
    let mut bytes = [0; 16];
    let few = body.len().min(16);
    bytes[..few].copy_from_slice(&body[..few]);
    bytes
}

fn sample_in(body: &[u8]) -> Sample
    requires { 12 ≤ length body.now }
    ensures { result ≡ sample_in (length body.now) body.now }
{
    let readings = Readings {
        elapsed: reader::four_at(body, 1),
        shunt: reader::four_at(body, 8).cast_signed(),
        thermistor: reader::two_at(body, 6) as u32,
        load: reader::byte_at(body, 5) as u32,
    };
    Sample {
        board: reader::byte_at(body, 0) as u32,
        readings,
        cells: cells_in(&body[12..]),
        count: (body.len() - 12) / 2,
    }
}

// A frame is taken to have had four bytes lent for its reply.
fn frame_in(body: &[u8]) -> Frame
    ensures { result ≡ frame_in (length body.now) body.now }
{
    Frame {
        bytes: bytes_in(body),
        count: body.len(),
        room: 4,
    }
}

fn kind_in(rest: &[u8]) -> Kind
    requires { IsWhole rest.now }
    ensures { code_of result ≡ kind_in rest.now }
{
    Kind::try_from(reader::byte_at(rest, 0)).unwrap()
}

fn act_in(rest: &[u8]) -> Act
    requires { IsWhole rest.now }
    ensures { result ≡ act_in rest.now }
{
    let long = reader::byte_at(rest, 1) as usize;
    let body = &rest[2..2 + long];
    match kind_in(rest) {
        Kind::Sample => Act::Sample(sample_in(body)),
        Kind::Frame => Act::Frame(frame_in(body)),
        Kind::Reading => Act::Reading,
    }
}

// ---- answers

// The values of an accepted act.
fn values_in(rest: &[u8], kind: Kind) -> [u16; 5]
    requires { values_long (code_of kind) 0 ≤ length rest.now }
    ensures { result ≡ places 5 (numbers_in (widths_by (code_of kind)) rest.now) }
{
    match kind {
        Kind::Sample => [rest[0] as u16, reader::two_at(rest, 1), 0, 0, 0],
        Kind::Frame => [
            rest[0] as u16,
            rest[1] as u16,
            rest[2] as u16,
            rest[3] as u16,
            0,
        ],
        Kind::Reading => [
            rest[0] as u16,
            rest[1] as u16,
            rest[2] as u16,
            rest[3] as u16,
            rest[4] as u16,
        ],
    }
}

// The answer that was recorded for the act that begins here.
#[tactic(auto, unfolding(crate::specs::Way::padded, format::specs::Read::answer_in))]
fn recorded_in(rest: &[u8]) -> Answer
    requires { IsWhole rest.now }
    ensures { result ≡ padded (answer_in rest.now) }
{
    let answer = &rest[2 + reader::byte_at(rest, 1) as usize..];
    let number = reader::byte_at(answer, 0);
    if number != 0 {
        return Err(number);
    }
    Ok(values_in(&answer[1..], kind_in(rest)))
}

// The answer that an act got.
#[tactic(auto, unfolding(crate::specs::Way::padded))]
fn answer_of(told: Result<Told, Refusal>) -> Answer
    ensures { result ≡ padded (told_said told) }
{
    Ok(match told? {
        Told::Opened => [0; 5],
        Told::Status(s) => [s.status as u16, s.bled, 0, 0, 0],
        Told::Reply(r) => [
            r.address as u16,
            r.register as u16,
            r.value as u16,
            r.check as u16,
            0,
        ],
        Told::Reading(w) => [
            u16::from(w.line),
            u16::from(w.chg),
            u16::from(w.dsg),
            w.flagged.board as u16,
            w.flagged.cell as u16,
        ],
    })
}

// ---- the boards

fn plans_at(bytes: &[u8], n: usize) -> [u32; 16]
    requires { 8 + 2 * n ≤ length bytes.now }
    ensures { result ≡ front n (map plan_by (boards_from n (drop 8 bytes.now))) }
{
    let mut plans = [0; 16];
    for (i, plan) in plans[..n.min(16)].iter_mut().enumerate() {
        let kind = reader::byte_at(bytes, 8 + 2 * i);
        *plan = u32::from_le_bytes([reader::byte_at(bytes, 9 + 2 * i), kind, 0, 0]);
    }
    plans
}

// Plans that were read open a row that has a record for each.
fn open_boards(row: &mut [Board], bytes: &[u8])
    requires { (8 + 2 * length row.old ≤ length bytes.now) × (length row.old ≤ 16) × (open_answer row.old (map plan_by (boards_from (length row.old) (drop 8 bytes.now))) ≡ Ok tt) }
    ensures { row.new ≡ open_row row.old (map plan_by (boards_from (length row.old) (drop 8 bytes.now))) }
{
    let boards = row.len();
    let plans = plans_at(bytes, boards);
    stack::open_row(row, &plans[..boards]).unwrap()
}

// ---- the acts, from a byte on: the place of the first that was answered otherwise, from 1

fn first_wrong(row: &mut [Board], bytes: &[u8], from: usize, acts: u32) -> Option<u32>
    requires { (from ≤ length bytes.now) × ((acts_step acts from (drop from bytes.now)).number ≡ 0) }
    ensures { (unwrap_or result 0 ≡ wrong_after 0 row.old (acts_from acts (drop from bytes.now))) × (row.new ≡ row_after row.old (acts_from acts (drop from bytes.now))) }
{
    let mut at = from;
    for done in 0..acts {
        let rest = &bytes[at..];
        let told = acts::act_row(row, act_in(rest));
        if answer_of(told) != recorded_in(rest) {
            return Some(done + 1);
        }
        at = reader::act_step(bytes, at).unwrap();
    }
    None
}

// ---- the check

// The place of a byte as it is told: one past the largest number of C's record is that number.
fn hold(at: usize) -> u32
    ensures { result ≡ held at }
{
    at.min(4294967295) as u32
}

// Checks a recording. The row has a record for each board of it, whatever these hold; where it has not, 1 is told, and how many they are.
pub fn check(row: &mut [Board], bytes: &[u8]) -> Checked
    ensures { (result ≡ check_of row.old bytes.now) × (row.new ≡ check_row row.old bytes.now) }
{
    match reader::read_back(bytes) {
        Err(stop) => Checked {
            place: hold(stop.at),
            number: u8::from(stop.fault),
        },
        Ok(counts) if counts.boards != row.len() => Checked {
            place: counts.boards as u32,
            number: 1,
        },
        Ok(counts) => {
            open_boards(row, bytes);
            let from = 8 + 2 * counts.boards;
            Checked {
                place: first_wrong(row, bytes, from, counts.acts).unwrap_or(0),
                number: 0,
            }
        }
    }
}
