// The journal of a board (02, ticket 8): its last 128 latchings in a ring, and their listing, oldest first.
#![tactic(auto)]

ghost use Rattle.std.specs.Prelude.{◌≡◌, ◌+◌, ◌-◌, ◌*◌, ◌%◌, ◌<◌, ◌≤◌, length, get_or};
ghost use Rattle.journal.specs.Ring.{what, no_entries, entered_all, noted, listing, words_over};
ghost use Rattle.lists.specs.Marks.{marked};

// An entry is a number in `numbers` and a byte in `whats`, at the same place: two arrays side by side, with where the next goes and how many there
// are behind them, as the record in C has it. A record may hold any bytes: `next` counts by its remainder, and a `len` past 128 as 128.
#[repr(C)]
#[derive(Clone, Copy)]
pub struct Journal {
    pub numbers: [u32; 128],
    pub whats: [u8; 128],
    pub next: u8,
    pub len: u8,
}

#[tactic(auto, unfolding(crate::specs::Ring::no_entries))]
pub fn blank() -> Journal
    ensures { result ≡ no_entries }
{
    Journal {
        numbers: [0; 128],
        whats: [0; 128],
        next: 0,
        len: 0,
    }
}

// What latched, in a byte: the cause in the upper half and the cell in the lower.
fn what_of(cause: u8, cell: u8) -> u8
    ensures { result ≡ what cause cell }
{
    16 * (cause % 16) + cell % 16
}

// The place of the entry with k older ones, in a ring of so many whose next goes here.
fn place_at(next: u8, many: usize, k: usize) -> usize
    requires { (many ≤ 128) × (k < many) }
    ensures { result ≡ (next % 128 + (128 - many) + k) % 128 }
{
    ((next % 128) as usize + (128 - many) + k) % 128
}

impl Journal {
    // The latchings of one sample, in the order of their causes. A full journal loses its oldest. The causes are marks, and a cause without a cell has 0,
    // by the contract of this function, which docs/TRACE.md names: `marked causes`, `get_or cells k 0`; C lists 0 for such a cause.
    pub fn enter(&mut self, causes: u16, cells: [u8; 5], number: u32)
        ensures { self.new ≡ entered_all self.old (noted (marked causes) (λ k. get_or cells k 0) number 0 5) }
    {
        for (cause, cell) in cells.iter().enumerate() {
            if lists::mark_at(causes, cause) {
                let here = self.next % 128;
                let at = usize::from(here);
                self.numbers[at] = number;
                self.whats[at] = what_of(cause as u8, *cell);
                self.next = (here + 1) % 128;
                self.len = self.len.saturating_add(1).min(128);
            }
        }
    }

    // How many entries a listing has.
    pub fn listed(&self) -> usize
        ensures { result ≡ length (listing self.now) }
    {
        usize::from(self.len.min(128))
    }

    // The listing in the first words of the buffer, three for each entry: cause, cell and number. The words past them stay.
    pub fn put_listing(&self, out: &mut [u32]) -> usize
        requires { 3 * length (listing self.now) ≤ length out.old }
        ensures { (result ≡ length (listing self.now)) × (out.new ≡ words_over (listing self.now) out.old) }
    {
        let many = self.listed();
        for k in (0..many).rev() {
            let at = place_at(self.next, many, k);
            let what = self.whats[at];
            out[3 * k + 2] = self.numbers[at];
            out[3 * k + 1] = u32::from(what % 16);
            out[3 * k] = u32::from(what / 16);
        }
        many
    }
}
