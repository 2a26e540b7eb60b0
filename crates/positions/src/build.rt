ghost use Rattle.std.specs.Prelude.{◌≡◌, ◌+◌, ◌<◌, ◌≤◌, length};
ghost use Rattle.types.specs.Tables.{rows_of};
ghost use Rattle.positions.specs.Tables.{MovesBelow};
ghost use Rattle.positions.specs.Built.{Built, types_of};
ghost use Rattle.positions.specs.Life.{Alive};
ghost use Rattle.positions.specs.Right.{Nulls, Lasts};

use crate::alive::alive_rows;
use crate::flags::Flags;
use crate::lasts::add_lasts;
use crate::live::live_rows;
use crate::moves::Moves;
use crate::next::{add_all_meets, add_firsts};
use crate::nullable::nullable_rows;
use crate::tables::Positions;
use crate::tops::tops_of;
use bits::Relation;
use types::TypeRows;

/// The moves within the rows that nothing below `end` owns.
// The tables come one by one: `Positions` keeps each in a field of its own, so a struct around them would be built of borrows at both calls and only be taken apart here.
fn moves_below(
    types: &TypeRows,
    nullable: &Flags,
    alive: &Flags,
    lasts: &Relation<4096>,
    end: u32,
) -> Moves
    requires { «end» ≤ length (rows_of types.now) }
    ensures { Nulls (rows_of types.now) nullable.now.marks → Alive (rows_of types.now) alive.now.marks → Lasts (rows_of types.now) lasts.now.words → MovesBelow (rows_of types.now) «end» result }
{
    let mut moves = Moves {
        next: Relation::new(),
        live: live_rows(types, alive, end),
    };
    add_firsts(types, nullable, &mut moves.next);
    add_all_meets(types, lasts, end, &mut moves.next);
    moves
}

impl Positions {
    /// The tables of these types.
    pub fn of(types: TypeRows) -> Positions
        ensures built { Built result }
        ensures types { result.types ≡ types }
    {
        let nullable = nullable_rows(&types);
        let alive = alive_rows(&types);
        let tops = tops_of(&types);
        let mut lasts = Relation::new();
        add_lasts(&types, &nullable, &mut lasts);
        let whole = moves_below(&types, &nullable, &alive, &lasts, types.count);
        Positions {
            types,
            nullable,
            alive,
            tops,
            lasts,
            whole,
        }
    }

    /// The moves within the rows up to this one, as if no row stood above it. Past the end they are those within whole types.
    pub fn up_to(&self, row: u32) -> Moves
        ensures { Built self.now → row < length (types_of self.now) → MovesBelow (types_of self.now) (row + 1) result }
    {
        if row >= self.types.count {
            return self.whole;
        }
        moves_below(
            &self.types,
            &self.nullable,
            &self.alive,
            &self.lasts,
            row + 1,
        )
    }
}
