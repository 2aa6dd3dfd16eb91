// Lists and sets of cells, and the laws on them that loops over slices and arrays ask for.
// A set of cells is a number: cell 1 is worth 1, cell 2 is worth 2, cell 3 is worth 4 and so on (01, Bleeding).
#![tactic(auto)]

ghost use Rattle.std.specs.Prelude.{◌≡◌};
ghost use Rattle.lists.specs.Marks.{marked};

// Whether the set has the cell at this place, counted from 0.
#[tactic(auto, using(crate::proofs::Marks::no_place))]
pub fn mark_at(set: u16, at: usize) -> bool
    ensures { result ≡ marked set at }
{
    at < 16 && (set >> at) % 2 == 1
}
