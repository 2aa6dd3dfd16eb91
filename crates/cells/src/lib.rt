// The cells of one board: their runs and flags, what they say of OV and UV, and bleeding
// (01, When a fault latches and lets go; Bleeding).
#![tactic(auto)]

ghost use Rattle.std.specs.Prelude.{◌≡◌, min, ◌+◌, ◌^◌, ◌<◌, ◌≤◌, cond};
ghost use Rattle.lists.specs.Marks.{number, marks};
ghost use Rattle.cells.specs.Cells.{sweep_of, lowest_cell, no_cells, span_of};
ghost use Rattle.lists.specs.Each.{each};
ghost use Rattle.cells.specs.Bleed.{bled};
ghost use Rattle.cells.specs.Way.{flag_at, no_runs, calm_of, mark_next};

use settings::Settings;

// What a board keeps of one cell: the runs of its OV and UV conditions.
#[repr(C)]
#[derive(Clone, Copy)]
pub struct Cell {
    pub ov: u32,
    pub uv: u32,
}

// What one pass over the cells gives. The flagged and the bled cells and those whose OV or UV run has stood are sets, as numbers. The cells stand
// beside them, and are not changed where they lie, since `sweep`, which docs/TRACE.md names, promises that its result is the record of `sweep_of`.
#[derive(Clone, Copy)]
pub struct Swept {
    pub cells: [Cell; 10],
    pub flags: u16,
    pub bled: u16,
    pub ov_stood: u16,
    pub uv_stood: u16,
}

// The lowest and the highest of some readings: what is asked of all of them is asked of these two.
#[derive(Clone, Copy)]
pub struct Span {
    pub low: u32,
    pub high: u32,
}

// In 64 bits, which the compiler keeps in two registers: of 32 it makes lanes, and folding these costs more than ten cells.
pub fn span_of(mv: &[u32]) -> Span
    ensures { result ≡ span_of mv.now }
{
    let mut low = u64::from(u32::MAX);
    let mut high = 0;
    for v in mv {
        let v = u64::from(*v);
        low = v.min(low);
        high = v.max(high);
    }
    Span {
        low: low as u32,
        high: high as u32,
    }
}

// A number of cells with one more cell below them.
fn mark_next(marked: bool, above: u16) -> u16
    requires { above < 1024 }
    ensures { result ≡ mark_next marked above }
{
    2 * above + u16::from(marked)
}

// A board has ten cells at most.
pub fn cell_count(readings: usize) -> usize
    ensures { result ≡ min readings 10 }
{
    readings.min(10)
}

// The flagged cells after a sample, as sets: those that have stood, and those flagged before that do not read low.
fn flags_next(stood: u16, low: u16, flags: u16, cells: usize) -> u16
    requires { (cells ≤ 10) × (stood < 2 ^ cells) × (low < 2 ^ cells) }
    ensures { result ≡ number (each 0 cells (flag_at stood low flags)) }
{
    // a number handed in may have marks past the cells
    let kept = flags % (1 << cells);
    stood | (kept & !low)
}

// The bled cells of the flagged ones: from the highest down, a flagged cell bleeds unless one of the two next higher ones does.
fn bled_of(flags: u16, cells: usize) -> u16
    requires { cells ≤ 10 }
    ensures { result ≡ number (bled (marks cells flags)) }
{
    if flags == 0 {
        return 0;
    }
    let mut out = 0;
    for i in (0..cells).rev() {
        // the two next higher cells are the last two bits of those above
        let bleeds = lists::mark_at(flags, i) & (out % 4 == 0);
        out = mark_next(bleeds, out);
    }
    out
}

// This place's cell is the lowest so far, where it is one; 0 is none. For cells that are gone through from the highest down, as those of a garden board.
pub fn lower_to(hit: bool, at: usize, low: u8) -> u8
    requires { at < 10 }
    ensures { result ≡ cond hit (at + 1) low }
{
    if hit { at as u8 + 1 } else { low }
}

// The lowest cell of a set; 0 for none, as an entry of the journal has it.
pub fn lowest_of(set: u16) -> u8
    ensures { result ≡ lowest_cell set }
{
    (0..10)
        .find(|i| lists::mark_at(set, *i))
        .map_or(0, |i| i as u8 + 1)
}

// One pass over the cells, from the highest down. The settings are decoded once, in front of it.
pub fn sweep(s: Settings, elapsed: u32, cells: [Cell; 10], flags: u16, mv: &[u32]) -> Swept
    ensures { result ≡ sweep_of s elapsed cells flags mv.now }
{
    let ov = s.ov_level();
    let ov_release = s.ov_release();
    let ov_delay = s.ov_delay();
    let uv = s.uv_level();
    let uv_delay = s.uv_delay();
    let mut next = cells;
    // the cells whose OV run and whose UV run has stood, and those that read lower than where OV lets go, as numbers
    let mut ov_stood = 0;
    let mut uv_stood = 0;
    let mut low = 0;
    let n = cell_count(mv.len());
    for i in (0..n).rev() {
        let v = mv[i];
        let ov_run = runs::advance(next[i].ov, ov < v, elapsed);
        let uv_run = runs::advance(next[i].uv, v < uv, elapsed);
        next[i] = Cell {
            ov: ov_run,
            uv: uv_run,
        };
        ov_stood = mark_next(runs::has_stood(ov_delay, ov_run), ov_stood);
        uv_stood = mark_next(runs::has_stood(uv_delay, uv_run), uv_stood);
        low = mark_next(v < ov_release, low);
    }
    let flagged = flags_next(ov_stood, low, flags, n);
    Swept {
        cells: next,
        flags: flagged,
        // behind the pass, as cells are seldom flagged
        bled: bled_of(flagged, n),
        ov_stood,
        uv_stood,
    }
}

// No cell has a run.
fn no_runs(cells: [Cell; 10]) -> bool
    ensures { result ≡ no_runs cells }
{
    // every cell is looked at: a test that may stop early makes a branch of each
    let mut none = true;
    for c in &cells {
        none &= (c.ov == 0) & (c.uv == 0);
    }
    none
}

// Nothing is the matter with the cells, nor was before: a sample of unflagged ones would find them as they are.
pub fn calm(s: Settings, cells: [Cell; 10], span: Span) -> bool
    ensures { result ≡ calm_of s cells span }
{
    no_runs(cells) & ((s.uv_release() < span.low) & (span.high < s.ov_release()))
}

// Every run at its start.
pub fn fresh_cells() -> [Cell; 10]
    ensures { result ≡ no_cells }
{
    [Cell { ov: 0, uv: 0 }; 10]
}
