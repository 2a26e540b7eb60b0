ghost use Rattle.std.specs.Prelude.{◌≡◌, ℕ, ◌<◌, ◌≤◌, true, false, ◌&&◌, length};
ghost use Rattle.rows.specs.TypeRows.{owns};
ghost use Rattle.bits.specs.Bits.{bit, related};
ghost use Rattle.types.specs.Tables.{rows_of};
ghost use Rattle.positions.specs.Filling.{meets_by, Followed};
ghost use Rattle.positions.specs.Right.{Nulls, Firsts, Lasts, Unfollowed, FollowsBelow};

use crate::ends::add_ends;
use crate::flags::Flags;
use bits::Relation;
use rows::TypeRow;
use types::TypeRows;

/// Adds the first items of each row to an empty relation, which is filled where it lies. No item follows another yet.
pub(crate) fn add_firsts(types: &TypeRows, nullable: &Flags, next: &mut Relation<8192>)
    requires { (j : ℕ) → bit next.old.words j ≡ false }
    ensures firsts { Nulls (rows_of types.now) nullable.now.marks → Firsts (rows_of types.now) next.new.words }
    ensures unfollowed { Nulls (rows_of types.now) nullable.now.marks → Unfollowed next.new.words }
{
    let rows = types.as_slice();
    for (place, row) in rows.iter().enumerate() {
        add_ends(next, nullable, place as u32, *row);
    }
}

/// Lets the firsts of `right` follow each last of `left`.
fn add_follows(lasts: &Relation<4096>, next: &mut Relation<8192>, left: u32, right: u32)
    requires left { left < 512 }
    requires right { right < 512 }
    ensures { Followed next.old.words next.new.words (λ x n. related lasts.now.words left x && related next.old.words right n) }
{
    for item in lasts.items(left) {
        next.unite(512 + item, right);
    }
}

/// Adds the items that meet at a row.
fn add_meets(row: TypeRow, lasts: &Relation<4096>, next: &mut Relation<8192>)
    requires { (p : ℕ) → owns row p ≡ true → p < 512 }
    ensures { Followed next.old.words next.new.words (meets_by lasts.now.words next.old.words row) }
{
    match row {
        TypeRow::Sequence { first, second } => add_follows(lasts, next, first, second),
        TypeRow::Repetition { part } => add_follows(lasts, next, part, part),
        _ => {}
    }
}

/// Adds the items that follow each item by meeting it at a row below `end`.
pub(crate) fn add_all_meets(
    types: &TypeRows,
    lasts: &Relation<4096>,
    end: u32,
    next: &mut Relation<8192>,
)
    requires { «end» ≤ length (rows_of types.now) }
    ensures firsts { Lasts (rows_of types.now) lasts.now.words → Firsts (rows_of types.now) next.old.words → Unfollowed next.old.words → Firsts (rows_of types.now) next.new.words }
    ensures follows { Lasts (rows_of types.now) lasts.now.words → Firsts (rows_of types.now) next.old.words → Unfollowed next.old.words → FollowsBelow (rows_of types.now) «end» next.new.words }
{
    let rows = types.as_slice();
    for row in &rows[..end as usize] {
        add_meets(*row, lasts, next);
    }
}
