// The recorder (02, ticket 10): it writes what was sent and what was answered into lent memory, act by act. It is a value beside that memory.
#![tactic(auto)]

ghost use Rattle.std.specs.Prelude.{◌≡◌, true, cond, [], ◌∷◌, ◌+◌, ◌*◌, ◌≤◌, eqb, length, take};
ghost use Rattle.lists.specs.Every.{every};
ghost use Rattle.refusal.specs.Said.{first};
ghost use Rattle.puts.specs.Put.{Put};
ghost use Rattle.format.specs.Format.{little, fits, header, board_bytes, sample, frame, reading, noted, all_bytes, recordable};
ghost use Rattle.recorder.specs.Recorder.{end, listed_of, has_garden, unbegun, begin_recorder, begin_memory, note_bars, after, note_recorder, note_memory, note_other, answer_of, frame_can};
ghost use Rattle.recorder.specs.Way.{sample_fits, sent_bytes};

use board::{Plan, Readings};

// How many bytes of the memory are used, and how many acts stand there; 0 while it goes on, else why it has stopped (16, no room; else 15);
// and what was said last, of the header or of an act: 0 where it stands in memory. The record is C's, which hands it in and takes the next one
// by value, so why it has stopped and what was said are numbers.
#[repr(C)]
#[derive(Clone, Copy)]
pub struct Recorder {
    pub used: u32,
    pub acts: u16,
    pub stopped: u8,
    pub verdict: u8,
}

// ---- the header. Each put has the whole memory and a place beside it, and no rest of it: its clause `Put` is said of the whole memory, as are
// `begin_memory` and `note_memory`, that the public functions promise

fn end_of(lent: usize) -> usize
    ensures { result ≡ end lent }
{
    lent.min(65535)
}

fn has_garden(plans: &[u32]) -> bool
    ensures { result ≡ has_garden plans.now }
{
    plans
        .iter()
        .any(|plan| board::is_garden(Plan::from(*plan).kind))
}

fn put_boards(memory: &mut [u8], at: usize, plans: &[u32]) -> usize
    requires { at + 2 * length plans.now ≤ length memory.old }
    ensures put { Put at (all_bytes (λ plan. board_bytes (listed_of plan)) plans.now) memory.old memory.new result }
    ensures value { result ≡ at + 2 * length plans.now }
{
    let mut next = at;
    for plan in plans {
        let plan = Plan::from(*plan);
        next = puts::put_bytes(memory, next, &[plan.kind, plan.cells]);
    }
    next
}

// Edition 1, so many boards, and no acts yet.
fn put_header(memory: &mut [u8], boards: u16) -> usize
    requires { 8 ≤ length memory.old }
    ensures put { Put 0 (header boards 0) memory.old memory.new result }
    ensures value { result ≡ 8 }
{
    let edition_end = puts::put_bytes(memory, 0, &1u16.to_le_bytes());
    let boards_end = puts::put_bytes(memory, edition_end, &boards.to_le_bytes());
    puts::put_bytes(memory, boards_end, &0u32.to_le_bytes())
}

fn not_begun(verdict: u8) -> Recorder
    ensures { result ≡ unbegun verdict }
{
    Recorder {
        used: 0,
        acts: 0,
        stopped: if verdict == 16 { 16 } else { 15 },
        verdict,
    }
}

// Begins a recording of a stack that was opened by these plans.
pub fn begin(memory: &mut [u8], plans: &[u32]) -> Recorder
    ensures { (result ≡ begin_recorder plans.now (length memory.old)) × (memory.new ≡ begin_memory plans.now memory.old) }
{
    if stack::bad_plans(plans) {
        return not_begun(1);
    }
    if has_garden(plans) {
        return not_begun(15);
    }
    let boards = plans.len();
    if end_of(memory.len()) < 8 + 2 * boards {
        return not_begun(16);
    }
    let header_end = put_header(memory, boards as u16);
    let used = put_boards(memory, header_end, plans);
    Recorder {
        used: used as u32,
        acts: 0,
        stopped: 0,
        verdict: 0,
    }
}

// ---- the verdict on an act. Its number is a byte, and no Refusal: C hands any, and it is recorded as it came

// It can not be recorded: so are a listing, and a look whether anything is up.
pub fn note_other(r: Recorder) -> Recorder
    ensures { result ≡ note_other r }
{
    Recorder { verdict: 15, ..r }
}

fn no_room(r: Recorder) -> Recorder
    ensures { result ≡ after r 0 16 }
{
    Recorder {
        stopped: 16,
        verdict: 16,
        ..r
    }
}

// The recorder with one act more, of so many bytes, that can be recorded.
fn one_more(r: Recorder, size: usize, lent: usize) -> Recorder
    requires { size ≤ 300 }
    ensures { result ≡ after r size (first (note_bars r true size lent)) }
{
    if r.stopped == 16 {
        return no_room(r);
    }
    if r.stopped != 0 {
        return note_other(r);
    }
    if (r.used < 8) | (65535 <= r.acts) {
        return no_room(r);
    }
    if end_of(lent) < r.used as usize + size {
        return no_room(r);
    }
    Recorder {
        used: r.used + size as u32,
        acts: r.acts + 1,
        stopped: r.stopped,
        verdict: 0,
    }
}

// The bytes of an answer: its number and, where that is 0, so many more.
fn answer_size(number: u8, values: usize) -> usize
    requires { values ≤ 5 }
    ensures value { result ≡ cond (eqb number 0) (1 + values) 1 }
    ensures upper_bound { result ≤ 6 }
{
    if number == 0 { 1 + values } else { 1 }
}

// An answer: its number and, where that is 0, the bytes of its values.
fn put_answer(memory: &mut [u8], at: usize, number: u8, values: &[u8]) -> usize
    requires { at + cond (eqb number 0) (1 + length values.now) 1 ≤ length memory.old }
    ensures { Put at (number ∷ cond (eqb number 0) values.now []) memory.old memory.new result }
{
    let number_end = puts::put_bytes(memory, at, &[number]);
    if number != 0 {
        return number_end;
    }
    puts::put_bytes(memory, number_end, values)
}

// The count of acts in the header, where an act was written.
fn put_count(memory: &mut [u8], acts: u16) -> usize
    requires { 8 ≤ length memory.old }
    ensures { Put 4 (little 4 acts) memory.old memory.new result }
{
    puts::put_bytes(memory, 4, &u32::from(acts).to_le_bytes())
}

// ---- a sample. The kind of an act is a byte of the format (`kind_of`), here in put_sample, put_frame and put_read, each once: an enum would be no
// plainer

fn cells_fit(cells: &[u32]) -> bool
    ensures { result ≡ every (fits 2) cells.now }
{
    cells.iter().all(|mv| *mv < 65536)
}

// More than 121 cells make a body of more than 255 bytes.
fn sample_fits(board: u32, x: Readings, cells: &[u32]) -> bool
    ensures { result ≡ sample_fits board x.load x.thermistor cells.now }
{
    if 121 < cells.len() {
        return false;
    }
    (board < 256) & (x.load < 256) & (x.thermistor < 65536) & cells_fit(cells)
}

fn put_cells(memory: &mut [u8], at: usize, cells: &[u32]) -> usize
    requires { (at + 2 * length cells.now ≤ length memory.old) × (every (fits 2) cells.now ≡ true) }
    ensures put { Put at (all_bytes (little 2) cells.now) memory.old memory.new result }
    ensures value { result ≡ at + 2 * length cells.now }
{
    let mut next = at;
    for mv in cells {
        next = puts::put_bytes(memory, next, &(*mv as u16).to_le_bytes());
    }
    next
}

fn put_sample(memory: &mut [u8], at: usize, board: u32, x: Readings, cells: &[u32]) -> usize
    requires { (at + (14 + 2 * length cells.now) ≤ length memory.old) × (sample_fits board x.load x.thermistor cells.now ≡ true) }
    ensures put { Put at (sent_bytes (sample board x.elapsed x.load x.thermistor x.shunt cells.now)) memory.old memory.new result }
    ensures value { result ≡ at + (14 + 2 * length cells.now) }
{
    let head = [1, (12 + 2 * cells.len()) as u8, board as u8];
    let board_end = puts::put_bytes(memory, at, &head);
    let elapsed_end = puts::put_bytes(memory, board_end, &x.elapsed.to_le_bytes());
    let load_end = puts::put_bytes(memory, elapsed_end, &[x.load as u8]);
    let thermistor_end = puts::put_bytes(memory, load_end, &(x.thermistor as u16).to_le_bytes());
    let shunt_end = puts::put_bytes(memory, thermistor_end, &x.shunt.to_le_bytes());
    put_cells(memory, shunt_end, cells)
}

// Notes a sample: its board, readings and cells as sent, the number that it returned and, where that is 0, its status and bled cells.
pub fn note_sample(
    r: Recorder,
    memory: &mut [u8],
    board: u32,
    x: Readings,
    cells: &[u32],
    number: u8,
    status: u8,
    bled: u16,
) -> Recorder
    ensures { (result ≡ note_recorder r (recordable (sample board x.elapsed x.load x.thermistor x.shunt cells.now)) (noted (sample board x.elapsed x.load x.thermistor x.shunt cells.now) (answer_of number (status ∷ bled ∷ []))) (length memory.old)) × (memory.new ≡ note_memory r (recordable (sample board x.elapsed x.load x.thermistor x.shunt cells.now)) (noted (sample board x.elapsed x.load x.thermistor x.shunt cells.now) (answer_of number (status ∷ bled ∷ []))) memory.old) }
{
    if !sample_fits(board, x, cells) {
        return note_other(r);
    }
    let size = 14 + 2 * cells.len() + answer_size(number, 3);
    let next = one_more(r, size, memory.len());
    if next.verdict != 0 {
        return next;
    }
    let sent_end = put_sample(memory, r.used as usize, board, x, cells);
    let bled = bled.to_le_bytes();
    put_answer(memory, sent_end, number, &[status, bled[0], bled[1]]);
    put_count(memory, next.acts);
    next
}

// ---- a frame

fn put_frame(memory: &mut [u8], at: usize, bytes: &[u8]) -> usize
    requires { (at + (2 + length bytes.now) ≤ length memory.old) × (length bytes.now ≤ 255) }
    ensures put { Put at (sent_bytes (frame bytes.now)) memory.old memory.new result }
    ensures value { result ≡ at + (2 + length bytes.now) }
{
    let size_end = puts::put_bytes(memory, at, &[2, bytes.len() as u8]);
    puts::put_bytes(memory, size_end, bytes)
}

// Notes a frame: its bytes as sent, the reply buffer after it, and the number that it returned.
pub fn note_frame(
    r: Recorder,
    memory: &mut [u8],
    bytes: &[u8],
    reply: &[u8],
    number: u8,
) -> Recorder
    ensures { (result ≡ note_recorder r (frame_can bytes.now reply.now) (noted (frame bytes.now) (answer_of number (take 4 reply.now))) (length memory.old)) × (memory.new ≡ note_memory r (frame_can bytes.now reply.now) (noted (frame bytes.now) (answer_of number (take 4 reply.now))) memory.old) }
{
    if 255 < bytes.len() {
        return note_other(r);
    }
    if reply.len() < 4 {
        return note_other(r);
    }
    let size = 2 + bytes.len() + answer_size(number, 4);
    let next = one_more(r, size, memory.len());
    if next.verdict != 0 {
        return next;
    }
    let sent_end = put_frame(memory, r.used as usize, bytes);
    put_answer(memory, sent_end, number, &reply[..4]);
    put_count(memory, next.acts);
    next
}

// ---- a reading

fn put_read(memory: &mut [u8], at: usize) -> usize
    requires { at + 2 ≤ length memory.old }
    ensures put { Put at (sent_bytes reading) memory.old memory.new result }
    ensures value { result ≡ at + 2 }
{
    puts::put_bytes(memory, at, &[3, 0])
}

// Notes a whole-stack reading: the number that it returned and, where that is 0, its five numbers: line, CHG, DSG, board and cell.
pub fn note_reading(r: Recorder, memory: &mut [u8], number: u8, seen: [u8; 5]) -> Recorder
    ensures { (result ≡ note_recorder r true (noted reading (answer_of number seen)) (length memory.old)) × (memory.new ≡ note_memory r true (noted reading (answer_of number seen)) memory.old) }
{
    let size = 2 + answer_size(number, 5);
    let next = one_more(r, size, memory.len());
    if next.verdict != 0 {
        return next;
    }
    let sent_end = put_read(memory, r.used as usize);
    put_answer(memory, sent_end, number, &seen);
    put_count(memory, next.acts);
    next
}
