// The latches of the five faults, the switches, register 0, a host board's register 1, and how often each fault latched (01, Frames and registers; When a fault latches and lets go; 02, tickets 3 and 7).
#![tactic(auto)]

ghost use Rattle.std.specs.Prelude.{◌≡◌};
ghost use Rattle.latches.specs.Latches.{latch_next, risen, latches_of, latches_byte, any_latch, chg_on, dsg_on, register0};
ghost use Rattle.latches.specs.Control.{control_next};
ghost use Rattle.latches.specs.Tallies.{tally_next, tallies_next};

// Which faults are latched.
#[derive(Clone, Copy)]
pub struct Latches {
    pub scd: bool,
    pub ocd: bool,
    pub ov: bool,
    pub uv: bool,
    pub ot: bool,
}

// The five low bits of register 0 as latches, and back by `byte_of`: docs/TRACE.md names both functions, and a From beside them would be a second way.
pub fn latches_of(byte: u8) -> Latches
    ensures { result ≡ latches_of byte }
{
    Latches {
        scd: byte / 1 % 2 == 1,
        ocd: byte / 2 % 2 == 1,
        ov: byte / 4 % 2 == 1,
        uv: byte / 8 % 2 == 1,
        ot: byte / 16 % 2 == 1,
    }
}

// A board keeps its latches as a byte, and what follows from them is a mask of it.
pub fn any_latch(byte: u8) -> bool
    ensures { result ≡ any_latch (latches_of byte) }
{
    (byte & 31) != 0
}

// A switch each, by name, as the paper has them: with a number for the switch they would be no plainer.
pub fn chg_on(may: bool, byte: u8) -> bool
    ensures { result ≡ chg_on may (latches_of byte) }
{
    may & ((byte & 23) == 0)
}

pub fn dsg_on(may: bool, byte: u8) -> bool
    ensures { result ≡ dsg_on may (latches_of byte) }
{
    may & ((byte & 27) == 0)
}

// The five latches as the low bits of register 0.
pub fn byte_of(t: Latches) -> u8
    ensures { result ≡ latches_byte t }
{
    u8::from(t.scd)
        + 2 * u8::from(t.ocd)
        + 4 * u8::from(t.ov)
        + 8 * u8::from(t.uv)
        + 16 * u8::from(t.ot)
}

// Register 0 of the byte that a board keeps: the latches, then DSG and CHG, each on where it may be.
pub fn status_of(dsg: bool, chg: bool, byte: u8) -> u8
    ensures { result ≡ register0 dsg chg (latches_of byte) }
{
    byte % 32 + 64 * u8::from(dsg_on(dsg, byte)) + 128 * u8::from(chg_on(chg, byte))
}

pub fn latch_next(latched: bool, stands: bool, lets_go: bool) -> bool
    ensures { result ≡ latch_next latched stands lets_go }
{
    if latched { !lets_go } else { stands }
}

// The faults that latched.
pub fn risen(old: Latches, new: Latches) -> Latches
    ensures { result ≡ risen old new }
{
    Latches {
        scd: new.scd & !old.scd,
        ocd: new.ocd & !old.ocd,
        ov: new.ov & !old.ov,
        uv: new.uv & !old.uv,
        ot: new.ot & !old.ot,
    }
}

// A fault latched at a sample; mostly none did.
pub fn any_up(up: Latches) -> bool
    ensures { result ≡ any_latch up }
{
    up.scd | up.ocd | up.ov | up.uv | up.ot
}

// Register 1 of a host board after a sample at which these faults latched.
pub fn control_next(control: u8, up: Latches) -> u8
    ensures { result ≡ control_next control up }
{
    if !any_up(up) {
        return control;
    }
    let byte = byte_of(up);
    let clear = control / 1 % 2 == 1;
    let dsg = dsg_on(control / 2 % 2 == 1, byte);
    let chg = chg_on(control / 4 % 2 == 1, byte);
    u8::from(clear) + 2 * u8::from(dsg) + 4 * u8::from(chg)
}

// How often each fault latched. A struct of its own beside the latches, and not one Faults<T> for both: C lends a board, and no record that C lends
// may hold a struct with a type argument.
#[repr(C)]
#[derive(Clone, Copy)]
pub struct Tallies {
    pub scd: u16,
    pub ocd: u16,
    pub ov: u16,
    pub uv: u16,
    pub ot: u16,
}

// A tally that is full stays.
#[tactic(auto, unfolding(crate::specs::Tallies::tally_next))]
fn tally_next(up: bool, tally: u16) -> u16
    ensures { result ≡ tally_next up tally }
{
    if up { tally.saturating_add(1) } else { tally }
}

// The tallies after a sample at which these faults latched.
pub fn tallies_next(up: Latches, t: Tallies) -> Tallies
    ensures { result ≡ tallies_next up t }
{
    if !any_up(up) {
        return t;
    }
    Tallies {
        scd: tally_next(up.scd, t.scd),
        ocd: tally_next(up.ocd, t.ocd),
        ov: tally_next(up.ov, t.ov),
        uv: tally_next(up.uv, t.uv),
        ot: tally_next(up.ot, t.ot),
    }
}
