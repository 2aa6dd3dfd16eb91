// The register map of one board, and what a frame does to its record (01, Frames and registers; 02, tickets 1, 3, 5 and 7).
#![tactic(auto)]

ghost use Rattle.std.specs.Prelude.{◌≡◌, ◌/◌, ◌%◌, Ok};
ghost use Rattle.frame.specs.Frame.{writes};
ghost use Rattle.registers.specs.Map.{tally_registers, in_map, no_register, fits, read_value};
ghost use Rattle.registers.specs.Registers.{shown_of, latches_steered, lacks_cycle, obeyed_of};
ghost use Rattle.registers.specs.Way.{allowed, asks_programming, asks_steering, asks_staging, steered_by, staged_by, cycles_after, spent_by, programmed_by, carried_out};

use board::{Board, Currents};
use frame::Request;
use refusal::Refusal;
use settings::Settings;

// ---- the map

// The lowest bit of the address is set in a write.
fn is_write(address: u8) -> bool
    ensures { result ≡ writes address }
{
    address % 2 == 1
}

// The register is not there on a board of this kind, or not to be written.
fn no_register(kind: u8, writes: bool, register: u8) -> bool
    ensures { result ≡ no_register kind writes register }
{
    match register {
        0 => writes,
        1 => !board::is_host(kind),
        6..=11 => board::is_garden(kind),
        16..=20 => writes,
        24..=28 => writes,
        _ => true,
    }
}

// The one value that register 11 takes: it programs.
const KEY: u8 = 0x41;

// A read carries 0, a write what its register takes: in the order of its definition, since two registers of a write have a rule of their own and the
// others are the settings'.
fn value_fits(writes: bool, register: u8, value: u8) -> bool
    ensures { result ≡ fits writes register value }
{
    if writes {
        if register == 11 {
            return value == KEY;
        }
        if register == 1 {
            return value < 8;
        }
        return Settings::allows(register, value);
    }
    value == 0
}

fn low_byte(tally: u16) -> u8
    ensures { result ≡ tally % 256 }
{
    tally.to_le_bytes()[0]
}

fn high_byte(tally: u16) -> u8
    ensures { result ≡ tally / 256 }
{
    tally.to_le_bytes()[1]
}

// The registers of the tallies: of each its low byte, and eight further up its high byte. An arm for each, as `tally_registers` has a row for each:
// by a tally and a byte, the numbers between and past them would have to be told apart too.
fn read_tally(b: &Board, register: u8) -> u8
    ensures { result ≡ in_map tally_registers register 0 (λ row. row.gives (shown_of b.now)) }
{
    match register {
        16 => low_byte(b.tallies.scd),
        17 => low_byte(b.tallies.ocd),
        18 => low_byte(b.tallies.ov),
        19 => low_byte(b.tallies.uv),
        20 => low_byte(b.tallies.ot),
        24 => high_byte(b.tallies.scd),
        25 => high_byte(b.tallies.ocd),
        26 => high_byte(b.tallies.ov),
        27 => high_byte(b.tallies.uv),
        28 => high_byte(b.tallies.ot),
        _ => 0,
    }
}

// A read of the settings gives the working bytes, so that a worn memory shows.
fn read(b: &Board, register: u8) -> u8
    ensures { result ≡ read_value (shown_of b.now) register }
{
    if 16 <= register {
        return read_tally(b, register);
    }
    match register {
        0 => b.status(),
        1 => b.control,
        11 => b.cycles,
        _ => b.working.byte(register),
    }
}

// ---- which way a frame goes, in the table's order

// Refusals 9 and 10, which the frame and the board's kind decide.
fn allowed(b: &Board, asked: Request) -> Result<(), Refusal>
    ensures { result ≡ allowed b.now asked }
{
    let writes = is_write(asked.address);
    if no_register(b.kind, writes, asked.register) {
        return Err(Refusal::NoRegister);
    }
    if value_fits(writes, asked.register, asked.value) {
        Ok(())
    } else {
        Err(Refusal::BadValue)
    }
}

// What a write asks, each as its definition has it, of the request whole: the write bit handed on beside the request would be a second value that has to
// fit it.
fn asks_programming(asked: Request) -> bool
    ensures { result ≡ asks_programming asked }
{
    is_write(asked.address) & (asked.register == 11)
}

fn asks_steering(asked: Request) -> bool
    ensures { result ≡ asks_steering asked }
{
    is_write(asked.address) & (asked.register == 1)
}

fn asks_staging(asked: Request) -> bool
    ensures { result ≡ asks_staging asked }
{
    is_write(asked.address)
}

// Refusal 11: programming would spend a cycle, and three are spent already.
fn lacks_cycle(b: &Board) -> bool
    ensures { result ≡ lacks_cycle b.now }
{
    let equal = b.staged.same(b.working);
    !equal & (3 <= b.cycles)
}

fn cycles_after(cycles: u8) -> u8
    ensures { result ≡ cycles_after cycles }
{
    if cycles < 3 { cycles + 1 } else { cycles }
}

// ---- what a frame does to the board; each gives the value that its reply carries

// The latches after a write to register 1.
fn latches_steered(b: &Board, value: u8) -> u8
    ensures { result ≡ latches_steered b.now value }
{
    if (b.control % 2 == 1) & !(value % 2 == 1) {
        return board::cleared(b.working, b.last, b.latches);
    }
    b.latches
}

// A write to register 1.
#[tactic(auto, unfolding(crate::specs::Way::steered_by))]
fn steer(b: &mut Board, value: u8) -> u8
    ensures { (Ok result ≡ (steered_by b.old value).outcome) × (b.new ≡ (steered_by b.old value).board) }
{
    b.latches = latches_steered(b, value);
    b.control = value;
    value
}

// A write that stages.
#[tactic(auto, unfolding(crate::specs::Way::staged_by))]
fn stage(b: &mut Board, register: u8, value: u8) -> u8
    ensures { (Ok result ≡ (staged_by b.old register value).outcome) × (b.new ≡ (staged_by b.old register value).board) }
{
    b.staged = b.staged.with_byte(register, value);
    value
}

// Programming that spends a cycle. Every run starts over, since the levels and delays may be others now.
#[tactic(auto, unfolding(crate::specs::Way::spent_by))]
fn spend(b: &mut Board) -> u8
    ensures { (Ok result ≡ (spent_by b.old).outcome) × (b.new ≡ (spent_by b.old).board) }
{
    let cycles = cycles_after(b.cycles);
    let cells = cells::fresh_cells();
    b.cycles = cycles;
    b.working = b.staged;
    b.currents = Currents { ocd: 0, scd: 0 };
    b.cells = cells;
    cycles
}

// Programming: refused for crossed levels or for want of a cycle, or nothing for equal settings, or a cycle is spent.
#[tactic(auto, unfolding(crate::specs::Way::programmed_by))]
fn program(b: &mut Board) -> Result<u8, Refusal>
    ensures { (result ≡ (programmed_by b.old).outcome) × (b.new ≡ (programmed_by b.old).board) }
{
    if b.staged.crossed() {
        return Err(Refusal::LevelsCrossed);
    }
    if lacks_cycle(b) {
        return Err(Refusal::NoCycle);
    }
    if b.staged.same(b.working) {
        return Ok(b.cycles);
    }
    Ok(spend(b))
}

// A frame that neither 9 nor 10 refuses. A read leaves the board. Three tests, in the order of the definition: a match on write and register would have an
// arm for each register that stages, and be no plainer.
#[tactic(auto, unfolding(crate::specs::Way::carried_out))]
fn carry_out(b: &mut Board, asked: Request) -> Result<u8, Refusal>
    ensures { (result ≡ (carried_out b.old asked).outcome) × (b.new ≡ (carried_out b.old asked).board) }
{
    if asks_programming(asked) {
        return program(b);
    }
    if asks_steering(asked) {
        return Ok(steer(b, asked.value));
    }
    if asks_staging(asked) {
        return Ok(stage(b, asked.register, asked.value));
    }
    Ok(read(b, asked.register))
}

// A frame that was sent to this board: refusals 9, 10, 13, 11 in order, or what it asks.
pub fn obey_board(b: &mut Board, asked: Request) -> Result<u8, Refusal>
    ensures { (result ≡ (obeyed_of b.old asked).outcome) × (b.new ≡ (obeyed_of b.old asked).board) }
{
    allowed(b, asked)?;
    carry_out(b, asked)
}
