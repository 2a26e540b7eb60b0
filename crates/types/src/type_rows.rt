ghost use Rattle.std.specs.Prelude.{◌≡◌, ◌≤◌, true, [], length, take};
ghost use Rattle.rows.specs.TypeTables.{types_lawful};

use rows::TypeRow;

/// A table of type rows that keeps the rules on parts.
// No row is ever added or taken out and only `as_slice` reads the array, so the methods of an array vector would have no use here.
#[derive(Clone, Copy)]
pub struct TypeRows {
    pub rows: [TypeRow; 512],
    pub count: u32,
    ghost long: { length rows ≡ 512 },
    ghost few: { count ≤ 512 },
    ghost lawful: { types_lawful [] (take count rows) ≡ true },
}
