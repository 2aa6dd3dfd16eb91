// The five settings bytes of a board, and what they mean (01, Frames and registers, registers 6 to 10).
// Cell levels are in mV, shunt levels in µV, delays in µs.
#![tactic(auto)]

ghost use Rattle.std.specs.Prelude.{◌≡◌};
ghost use Rattle.settings.specs.Levels.{ov_level, ov_hysteresis, ov_release, ov_delay, uv_level, uv_hysteresis, uv_release, ocd_delay, ocd_level, uv_delay, scd_level, crossed, scd_delay};
ghost use Rattle.settings.specs.Bytes.{byte_of, with_byte, same, allowed};

// Each byte under its register's number.
#[repr(C)]
#[derive(Clone, Copy, Debug, PartialEq, Eq)]
pub struct Settings {
    pub r6: u8,
    pub r7: u8,
    pub r8: u8,
    pub r9: u8,
    pub r10: u8,
}

// What a code stands for where no formula gives it.
const OV_HYSTERESIS: [u32; 4] = [100, 200, 300, 0];

const UV_HYSTERESIS: [u32; 4] = [200, 400, 800, 1200];

const UV_DELAYS: [u32; 16] = [
    0, 1250, 2500, 5000, 10000, 15000, 20000, 30000, 1000000, 2000000, 3000000, 4000000, 5000000,
    6000000, 7000000, 8000000,
];

impl Settings {
    pub const FACTORY: Settings = Settings {
        r6: 0,
        r7: 0,
        r8: 0,
        r9: 0,
        r10: 0,
    };

    pub fn ov_level(self) -> u32
        ensures { result ≡ ov_level self }
    {
        4150 + 50 * (self.r6 as u32 % 8)
    }

    // The hystereses of OV and of UV, each by its own table and register: with these handed in they would be no plainer.
    pub fn ov_hysteresis(self) -> u32
        ensures { result ≡ ov_hysteresis self }
    {
        OV_HYSTERESIS[(self.r6 / 8 % 4) as usize]
    }

    pub fn ov_release(self) -> u32
        ensures { result ≡ ov_release self }
    {
        self.ov_level() - self.ov_hysteresis()
    }

    pub fn ov_delay(self) -> u32
        ensures { result ≡ ov_delay self }
    {
        500000 + 250000 * (self.r6 as u32 / 32 % 8)
    }

    pub fn uv_level(self) -> u32
        ensures { result ≡ uv_level self }
    {
        1400 + 100 * (self.r7 as u32 % 16)
    }

    pub fn uv_hysteresis(self) -> u32
        ensures { result ≡ uv_hysteresis self }
    {
        UV_HYSTERESIS[(self.r7 / 16 % 4) as usize]
    }

    pub fn uv_release(self) -> u32
        ensures { result ≡ uv_release self }
    {
        (self.uv_level() + self.uv_hysteresis()).min(3300)
    }

    pub fn ocd_delay(self) -> u32
        ensures { result ≡ ocd_delay self }
    {
        let code = self.r8 as u32 % 32;
        if code < 16 {
            20000 * (code + 1)
        } else {
            100000 * (code - 15)
        }
    }

    // The levels of the two currents, each by its own sentence of the paper: with a register and a step handed in they would be no plainer.
    pub fn ocd_level(self) -> u32
        ensures { result ≡ ocd_level self }
    {
        10000 + 5000 * (self.r9 as u32 % 16)
    }

    pub fn uv_delay(self) -> u32
        ensures { result ≡ uv_delay self }
    {
        UV_DELAYS[(self.r9 / 16 % 16) as usize]
    }

    pub fn scd_level(self) -> u32
        ensures { result ≡ scd_level self }
    {
        60000 + 5000 * (self.r10 as u32 % 16)
    }

    // Crossed levels: a short circuit would trip at or under the overcurrent level.
    pub fn crossed(self) -> bool
        ensures { result ≡ crossed self }
    {
        self.scd_level() <= self.ocd_level()
    }

    pub fn scd_delay(self) -> u32
        ensures { result ≡ scd_delay self }
    {
        60 * (self.r10 as u32 / 16 % 16)
    }

    // The byte of a register. Its contract gives one for every register, by `byte_of`, which docs/DEMANDS.md names: 0 for one that is none of the five.
    pub fn byte(self, register: u8) -> u8
        ensures { result ≡ byte_of self register }
    {
        match register {
            6 => self.r6,
            7 => self.r7,
            8 => self.r8,
            9 => self.r9,
            10 => self.r10,
            _ => 0,
        }
    }

    // One byte written anew; a register that is none of the five leaves them all.
    pub fn with_byte(self, register: u8, value: u8) -> Settings
        ensures { result ≡ with_byte self register value }
    {
        let mut next = self;
        match register {
            6 => next.r6 = value,
            7 => next.r7 = value,
            8 => next.r8 = value,
            9 => next.r9 = value,
            10 => next.r10 = value,
            _ => {}
        }
        next
    }

    // Equal by bytes: two codes that mean the same still differ. It is the derived equality, with a name since the edits `fourth_byte_overlooked` and
    // `last_byte_overlooked` are refused at it; a derived one overlooks no byte.
    pub fn same(self, other: Settings) -> bool
        ensures { result ≡ same self other }
    {
        self == other
    }

    // Whether a value may be written to a register: bits that must be zero are.
    pub fn allows(register: u8, value: u8) -> bool
        ensures { result ≡ allowed register value }
    {
        match register {
            7 => value < 64,
            8 => value < 32,
            6 | 9 | 10 => true,
            _ => false,
        }
    }
}
