// Runs the published check bytes, the session of the paper and worked samples and frames of a stack of one board, and prints
// what comes of each.
// The file stdout has what the publications and the paper say; nothing in it was taken from a run.
#![tactic(auto)]

use board::Readings;
use held::Stack;
use refusal::Refusal;
use std::io;

fn show_refusal(rt: &impl Print, why: Refusal) -> io::Result<()> {
    let number = u8::from(why);
    print!(rt; "no {number}")
}

fn show_check(rt: &impl Print, word: &str, check: u8) -> io::Result<()> {
    println!(rt; "{word} {check}")
}

fn show_reading(rt: &impl Print, s: &Stack) -> io::Result<()> {
    match s.read() {
        Ok(w) => {
            let line = u8::from(w.line);
            let chg = u8::from(w.chg);
            let dsg = u8::from(w.dsg);
            let board = w.flagged.board;
            let cell = w.flagged.cell;
            print!(rt; "ln {line} chg {chg} dsg {dsg} at {board} {cell}")?;
        }
        Err(why) => show_refusal(rt, why)?,
    }
    println!(rt; "")
}

// A stack of one board by its plan.
fn one_board(plan: u32) -> Stack {
    Stack {
        boards: [board::fresh_board(plan); 16],
        count: 1,
    }
}

// One sample of five cells, of which the first reads v and the others w.
fn sampled(rt: &impl Print, s: &mut Stack, v: u32, w: u32, x: Readings) -> io::Result<()> {
    match s.sample(1, x, &[v, w, w, w, w]) {
        Ok(answer) => {
            let status = answer.status;
            let bled = answer.bled;
            print!(rt; "st {status} bal {bled}")?;
        }
        Err(why) => show_refusal(rt, why)?,
    }
    println!(rt; "")
}

// A quiet sample but for the cells.
fn cells(rt: &impl Print, s: &mut Stack, elapsed: u32, v: u32, w: u32) -> io::Result<()> {
    sampled(
        rt,
        s,
        v,
        w,
        Readings {
            elapsed,
            shunt: 0,
            thermistor: 2000,
            load: 0,
        },
    )
}

// A quiet sample but for the first cell.
fn first_cell(rt: &impl Print, s: &mut Stack, elapsed: u32, v: u32) -> io::Result<()> {
    cells(rt, s, elapsed, v, 4000)
}

// A quiet sample but for the shunt.
fn shunt_at(rt: &impl Print, s: &mut Stack, elapsed: u32, shunt: i32, load: u32) -> io::Result<()> {
    sampled(
        rt,
        s,
        4000,
        4000,
        Readings {
            elapsed,
            shunt,
            thermistor: 2000,
            load,
        },
    )
}

// A frame of four bytes; the reply goes into a buffer of six, of which the last two are shown too.
fn framed(rt: &impl Print, s: &mut Stack, frame: [u8; 4]) -> io::Result<()> {
    let mut buffer = [7u8; 6];
    let reply = s.frame(&frame, &mut buffer);
    let [address, register, value, check, fifth, sixth] = buffer;
    match reply {
        Ok(_) => print!(rt; "re {address} {register} {value} {check}")?,
        Err(why) => show_refusal(rt, why)?,
    }
    println!(rt; " then {fifth} {sixth}")
}

// A frame with its right check byte.
fn sent(rt: &impl Print, s: &mut Stack, address: u8, register: u8, value: u8) -> io::Result<()> {
    framed(
        rt,
        s,
        [
            address,
            register,
            value,
            frame::check_byte(address, register, value),
        ],
    )
}

// Frames that carry 0, each with its right check byte.
fn asked(rt: &impl Print, s: &mut Stack, registers: &[u8]) -> io::Result<()> {
    for register in registers {
        sent(rt, s, 2, *register, 0)?;
    }
    Ok(())
}

// The check byte of one byte is listed in the published table of the code.
fn published(rt: &impl Print) -> io::Result<()> {
    show_check(rt, "crc8 123456789", frame::check_all(b"123456789"))?;
    for byte in [0u8, 1, 2, 128, 255] {
        let check = frame::check_all(&[byte]);
        println!(rt; "crc8 {byte} {check}")?;
    }
    show_check(rt, "frame 2 0 0", frame::check_byte(2, 0, 0))?;
    show_check(rt, "reply 2 0 192", frame::check_byte(2, 0, 192))
}

// The session of the paper.
fn session(rt: &impl Print) -> io::Result<()> {
    let mut s = match Stack::open(&[5]) {
        Ok(opened) => {
            println!(rt; "ok")?;
            opened
        }
        Err(why) => {
            show_refusal(rt, why)?;
            println!(rt; "")?;
            Stack::none()
        }
    };
    first_cell(rt, &mut s, 1000, 4000)?;
    framed(rt, &mut s, [2, 0, 0, 214])?;
    shunt_at(rt, &mut s, 1000, 60001, 1)?;
    show_reading(rt, &s)?;
    shunt_at(rt, &mut s, 20000, 0, 0)
}

// M1 to M4: the first cell at 4,151 latches on the seventh sample; then all at 4,050, then all at 4,049.
fn over_voltage(rt: &impl Print) -> io::Result<()> {
    let mut s = one_board(board::stand_alone(5));
    for _ in 0..7 {
        first_cell(rt, &mut s, 100000, 4151)?;
    }
    cells(rt, &mut s, 100000, 4050, 4050)?;
    cells(rt, &mut s, 100000, 4049, 4049)
}

// UV at the factory settings: level 1,400, no delay, release 1,600.
fn under_voltage(rt: &impl Print) -> io::Result<()> {
    let mut s = one_board(board::stand_alone(5));
    for v in [1400u32, 1399, 1600, 1601] {
        first_cell(rt, &mut s, 1, v)?;
    }
    Ok(())
}

// The shunt at zero, at the OCD and SCD levels, at both ends and past them; OCD latches after more than 20 ms.
fn currents(rt: &impl Print) -> io::Result<()> {
    let mut s = one_board(board::stand_alone(5));
    for shunt in [0i32, 10000, 10001, 10001] {
        shunt_at(rt, &mut s, 20000, shunt, 1)?;
    }
    for shunt in [10001i32, 60000, 500000, 500001, -500000, -500001] {
        shunt_at(rt, &mut s, 1, shunt, 1)?;
    }
    shunt_at(rt, &mut s, 1, -500000, 0)
}

fn temperature_and_refusals(rt: &impl Print) -> io::Result<()> {
    let mut s = one_board(board::stand_alone(5));
    let quiet = Readings {
        elapsed: 1,
        shunt: 0,
        thermistor: 2000,
        load: 0,
    };
    for thermistor in [974u32, 975] {
        sampled(
            rt,
            &mut s,
            4000,
            4000,
            Readings {
                thermistor,
                ..quiet
            },
        )?;
    }
    sampled(
        rt,
        &mut s,
        5001,
        4000,
        Readings {
            elapsed: 0,
            shunt: 0,
            thermistor: 5001,
            load: 2,
        },
    )?;
    first_cell(rt, &mut s, 100001, 4000)?;
    shunt_at(rt, &mut s, 100000, 0, 2)?;
    sampled(
        rt,
        &mut s,
        4000,
        4000,
        Readings {
            thermistor: 5001,
            ..quiet
        },
    )?;
    first_cell(rt, &mut s, 1, 5001)?;
    first_cell(rt, &mut s, 1, 5000)?;
    for count in [6u32, 4] {
        first_cell(rt, &mut one_board(board::stand_alone(count)), 0, 5001)?;
    }
    Ok(())
}

// Three programmings that differ, and what a worn memory then says; equal settings spend nothing.
fn programming(rt: &impl Print) -> io::Result<()> {
    let mut s = one_board(board::stand_alone(5));
    for (address, register, value) in [
        (3u8, 11u8, 0x41u8),
        (3, 7, 0x38),
        (2, 7, 0),
        (3, 11, 0x41),
        (2, 7, 0),
        (3, 8, 16),
        (3, 11, 0x41),
        (3, 8, 15),
        (3, 11, 0x41),
        (3, 11, 0x41),
        (3, 8, 16),
        (3, 11, 0x41),
        (2, 8, 0),
        (2, 11, 0),
        (3, 0, 0),
        (2, 12, 0),
        (3, 7, 64),
        (2, 11, 0x41),
        (3, 11, 0x40),
    ] {
        sent(rt, &mut s, address, register, value)?;
    }
    framed(rt, &mut s, [2, 0, 0, 215])
}

// OCD at 60 mV under SCD at 60: crossed, and nothing is spent; under 65 it is programmed.
fn crossed_levels(rt: &impl Print) -> io::Result<()> {
    let mut s = one_board(board::stand_alone(5));
    for (address, register, value) in [
        (3u8, 9u8, 10u8),
        (3, 11, 0x40),
        (3, 11, 0x41),
        (2, 9, 0),
        (2, 11, 0),
        (3, 10, 1),
        (3, 11, 0x41),
        (2, 9, 0),
    ] {
        sent(rt, &mut s, address, register, value)?;
    }
    Ok(())
}

// A host board: both switches off until register 1 sets their bits; a short circuit clears both and stays at a good sample, until b0
// goes from 1 to 0; the same write sets the bits again. OV at its level is not over, one below it is.
fn host_board(rt: &impl Print) -> io::Result<()> {
    let mut s = one_board(board::host(5));
    first_cell(rt, &mut s, 100000, 4000)?;
    sent(rt, &mut s, 3, 1, 6)?;
    first_cell(rt, &mut s, 100000, 4000)?;
    shunt_at(rt, &mut s, 100000, 60001, 1)?;
    shunt_at(rt, &mut s, 100000, 0, 0)?;
    sent(rt, &mut s, 2, 1, 0)?;
    sent(rt, &mut s, 3, 1, 7)?;
    sent(rt, &mut s, 2, 0, 0)?;
    sent(rt, &mut s, 3, 1, 6)?;
    sent(rt, &mut s, 2, 0, 0)?;
    sent(rt, &mut s, 3, 1, 8)?;
    for _ in 0..7 {
        first_cell(rt, &mut s, 100000, 4151)?;
    }
    first_cell(rt, &mut s, 100000, 4150)?;
    sent(rt, &mut s, 3, 1, 7)?;
    sent(rt, &mut s, 3, 1, 6)?;
    sent(rt, &mut s, 2, 0, 0)?;
    first_cell(rt, &mut s, 100000, 4149)?;
    sent(rt, &mut s, 3, 1, 7)?;
    sent(rt, &mut s, 3, 1, 6)?;
    sent(rt, &mut s, 2, 0, 0)?;
    sent(rt, &mut one_board(board::stand_alone(5)), 2, 1, 0)
}

// A garden board: it starts with OV latched, counts up and down, and lets go by its recovery counts; UV waits for the load in this row.
// Its tallies have the OV latch that came and not the one it started with.
fn garden_board(rt: &impl Print) -> io::Result<()> {
    let mut s = one_board(board::garden_plan(5, 0, 2));
    sent(rt, &mut s, 2, 0, 0)?;
    for v in [3999u32, 3999, 4201, 4200, 4201, 4201, 2899, 2899] {
        cells(rt, &mut s, 100000, v, 3999)?;
    }
    let loaded = Readings {
        elapsed: 100000,
        shunt: 0,
        thermistor: 2000,
        load: 1,
    };
    let hot = Readings {
        elapsed: 100000,
        shunt: 60001,
        thermistor: 100,
        load: 0,
    };
    for x in [loaded, hot, hot] {
        sampled(rt, &mut s, 3301, 3301, x)?;
    }
    for (address, register, value) in [
        (2u8, 18u8, 0u8),
        (2, 1, 0),
        (2, 6, 0),
        (3, 11, 65),
        (3, 0, 0),
        (2, 0, 1),
    ] {
        sent(rt, &mut s, address, register, value)?;
    }
    sent(rt, &mut one_board(board::garden_plan(6, 0, 2)), 2, 0, 0)
}

// Two short circuits, the first over two samples and the second with heat: SCD has latched twice and overtemperature once. Nothing
// writes a tally, a read carries 0, and register 21 is none.
fn tallies(rt: &impl Print) -> io::Result<()> {
    let mut s = one_board(board::stand_alone(5));
    sent(rt, &mut s, 2, 16, 0)?;
    shunt_at(rt, &mut s, 1, 60001, 1)?;
    shunt_at(rt, &mut s, 1, 60001, 1)?;
    sent(rt, &mut s, 2, 16, 0)?;
    shunt_at(rt, &mut s, 1, 0, 0)?;
    sampled(
        rt,
        &mut s,
        4000,
        4000,
        Readings {
            elapsed: 1,
            shunt: 60001,
            thermistor: 974,
            load: 1,
        },
    )?;
    asked(rt, &mut s, &[16, 17, 18, 19, 20, 24, 25, 26, 27, 28])?;
    sent(rt, &mut s, 3, 16, 0)?;
    sent(rt, &mut s, 3, 28, 1)?;
    sent(rt, &mut s, 2, 24, 1)?;
    sent(rt, &mut s, 2, 21, 0)
}

fn main(rt: HostRuntime) -> io::Result<()> {
    published(&rt)?;
    session(&rt)?;
    over_voltage(&rt)?;
    under_voltage(&rt)?;
    currents(&rt)?;
    temperature_and_refusals(&rt)?;
    programming(&rt)?;
    crossed_levels(&rt)?;
    host_board(&rt)?;
    garden_board(&rt)?;
    tallies(&rt)
}
