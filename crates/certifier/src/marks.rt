// The table of marks: row n is what is kept of version n.
ghost use Rattle.std.specs.Prelude.{◌≤◌, vec_capacity};

use crate::Mark;

mod opening;
mod verdict;

#[derive(Drop)]
pub(crate) struct Marks {
    places: usize,
    rows: Vec<Mark>,
    ghost room: { places ≤ vec_capacity rows },
}
