// The whole-stack reading: what a walk over the lent row keeps of its boards, and the search for a flagged cell (01, Whole-stack reading); and
// the fault line alone (02, ticket 9).
#![tactic(auto)]

ghost use Rattle.std.specs.Prelude.{◌≡◌, [], ◌<◌};
ghost use Rattle.lists.specs.Marks.{marks};
ghost use Rattle.reading.specs.Reading.{summary_of, place};
ghost use Rattle.reading.specs.Way.{with_board, seen_of, seen_with, seen_row, place_at, first_from, up, whole_of, read_row, up_at, none_up, line_row};

use board::Board;

// What the reading takes from one board; the flagged cells as a number.
#[derive(Clone, Copy)]
pub struct Summary {
    pub latched: bool,
    pub chg: bool,
    pub dsg: bool,
    pub count: u8,
    pub flags: u16,
}

// The summary of a board's record.
#[tactic(auto, unfolding(crate::specs::Reading::summary_of))]
fn summary_of(b: &Board) -> Summary
    ensures { result ≡ summary_of b.now }
{
    Summary {
        latched: latches::any_latch(b.latches),
        chg: latches::chg_on(b.may_chg(), b.latches),
        dsg: latches::dsg_on(b.may_dsg(), b.latches),
        count: b.count,
        flags: b.flags,
    }
}

// A board and a cell on it, each counted from 1; or 0 and 0, which is what the paper has for none and C's reading holds.
#[derive(Clone, Copy, Debug, PartialEq, Eq)]
pub struct Place {
    pub board: u8,
    pub cell: u8,
}

#[derive(Clone, Copy, Debug, PartialEq, Eq)]
pub struct Whole {
    pub line: bool,
    pub chg: bool,
    pub dsg: bool,
    pub flagged: Place,
}

// ---- the walk over the row

// What a walk over the row keeps of the boards, southernmost first: how many they are, which have a latch, whether CHG and DSG are on at every one, and whether one has a flag.
// A set of boards is a number, as a set of cells is: board 1 is worth 1, board 2 is worth 2, board 3 is worth 4 and so on.
#[derive(Clone, Copy)]
struct Seen {
    count: u8,
    latched: u16,
    chg: bool,
    dsg: bool,
    flagged: bool,
}

// Before the first board.
fn none_seen() -> Seen
    ensures { result ≡ seen_of [] }
{
    Seen {
        count: 0,
        latched: 0,
        chg: true,
        dsg: true,
        flagged: false,
    }
}

// A set of boards, with the board at this place or without it.
fn with_board(set: u16, at: usize, is: bool) -> u16
    requires { at < 16 }
    ensures { result ≡ with_board set at is }
{
    if is { set | (1 << at) } else { set }
}

// One board more, north of those seen; a row has 16 at most.
#[tactic(auto, unfolding(crate::specs::Way::seen_with))]
fn see(seen: Seen, at: usize, b: &Board) -> Seen
    ensures { result ≡ seen_with seen at b.now }
{
    if 16 <= at {
        return seen;
    }
    let s = summary_of(b);
    Seen {
        count: at as u8 + 1,
        latched: with_board(seen.latched, at, s.latched),
        chg: seen.chg & s.chg,
        dsg: seen.dsg & s.dsg,
        flagged: seen.flagged | (s.flags != 0),
    }
}

// What is kept of the row's boards, gathered board by board.
fn see_row(row: &[Board]) -> Seen
    ensures { result ≡ seen_row row.now }
{
    let mut seen = none_seen();
    for (i, b) in row.iter().enumerate() {
        seen = see(seen, i, b);
    }
    seen
}

fn no_place() -> Place
    ensures { result ≡ place 0 0 }
{
    Place { board: 0, cell: 0 }
}

// The place of a cell; a row has 16 boards at most, and a board 16 cells.
fn place_at(board: usize, cell: usize) -> Place
    ensures { result ≡ place_at board cell }
{
    if 16 <= board {
        return no_place();
    }
    if 16 <= cell {
        return no_place();
    }
    Place {
        board: board as u8 + 1,
        cell: cell as u8 + 1,
    }
}

// The southernmost board with a flagged cell, and the lowest such cell on it: the first one found ends both loops, as the paper names it.
fn first_flagged(row: &[Board]) -> Place
    ensures { result ≡ first_from 0 row.now }
{
    let mut place = no_place();
    'boards: for (i, b) in row.iter().enumerate() {
        for j in 0..b.count as usize {
            if lists::mark_at(b.flags, j) {
                place = place_at(i, j);
                break 'boards;
            }
        }
    }
    place
}

// ---- the reading

// The fault line of the lowest board of a set, with so many boards left from it northward. By recursion, as the paper names it (01, Expected form
// in each place).
fn line_up(latched: u16, left: u8) -> bool
    ensures { result ≡ up (marks left latched) }
{
    if left == 0 {
        return false;
    }
    if latched == 0 {
        return false;
    }
    if latched % 2 == 1 {
        return true;
    }
    line_up(latched / 2, left - 1)
}

// The reading of the boards seen: board 1's line, pack CHG, pack DSG and the flagged cell.
#[tactic(auto, unfolding(crate::specs::Way::whole_of))]
fn read_all(seen: Seen, flagged: Place) -> Whole
    ensures { result ≡ whole_of seen flagged }
{
    let line = line_up(seen.latched, seen.count);
    Whole {
        line,
        chg: seen.chg,
        dsg: seen.dsg,
        flagged,
    }
}

// The reading of a row. A flagged cell is sought only where a board has a flag.
pub fn read_row(row: &[Board]) -> Whole
    ensures { result ≡ read_row row.now }
{
    let seen = see_row(row);
    let flagged = if seen.flagged {
        first_flagged(row)
    } else {
        no_place()
    };
    read_all(seen, flagged)
}

// ---- the fault line alone

// Whether the line is up, and how many boards were looked at for it.
#[derive(Clone, Copy, Debug, PartialEq, Eq)]
pub struct Line {
    pub up: bool,
    pub looked: u8,
}

#[tactic(auto, unfolding(crate::specs::Reading::summary_of))]
fn has_latch(b: &Board) -> bool
    ensures { result ≡ (summary_of b.now).latched }
{
    latches::any_latch(b.latches)
}

// A row has 16 boards at most: the number of the board at a place.
fn up_at(at: usize) -> Line
    ensures { result ≡ up_at at }
{
    Line {
        up: true,
        looked: at.min(15) as u8 + 1,
    }
}

fn none_up(boards: usize) -> Line
    ensures { result ≡ none_up boards }
{
    Line {
        up: false,
        looked: boards.min(16) as u8,
    }
}

// The fault line of a row: the search ends at the first board that has a latch.
pub fn line_row(row: &[Board]) -> Line
    ensures { result ≡ line_row row.now }
{
    for (i, b) in row.iter().enumerate() {
        if has_latch(b) {
            return up_at(i);
        }
    }
    none_up(row.len())
}
