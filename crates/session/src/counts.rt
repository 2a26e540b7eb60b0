ghost use Rattle.std.specs.Prelude.{◌≤◌};

/// How many type rows are declared, and how many stand in the table: behind the declared ones those that a check made.
#[derive(Clone, Copy, PartialEq, Eq, Debug)]
pub struct Counts {
    pub(crate) declared: u32,
    pub(crate) all: u32,
    ghost ordered: { declared ≤ all },
    ghost few: { all ≤ 512 },
}
