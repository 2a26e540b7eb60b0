ghost use Rattle.std.specs.Prelude.{◌≡◌, ℕ, ◌+◌, ◌≤◌, true, [], length, IfOk, None, vec_len, MatchResult};
ghost use Rattle.forest.specs.declared.failure.Failure.TheVariants.{Refused};
ghost use Rattle.forest.specs.declared.fault.Reason.TheVariants.{UnlawfulTable};
ghost use Rattle.forest.specs.Faults.{faulted};
ghost use Rattle.arena.specs.Arenas.{means_over};
ghost use Rattle.table.specs.Tables.{refusal, table_meaning, Fails};
ghost use Rattle.table.specs.Filling.{Prepared, Took, Full, Stopped};

use crate::row::RawRow;
use crate::table::Table;
use arena::{Arena, Row};
use forest::{Failure, Fault, Reason, Space, Store};
use std::alloc::{AllocError, Global};

/// The most rows, child entries or text bytes of a table.
const MOST: usize = 65_535;

impl Table {
    /// Loads a table, or refuses it: past a limit, else by its first unlawful row.
    pub fn load(
        alloc: Global,
        rows: &[RawRow],
        children: &[u32],
        text: &[u8],
    ) -> Result<Table, Failure>
        ensures { MatchResult result (λ t. (refusal rows.now children.now text.now ≡ None) × (means_over [] t.own ≡ table_meaning rows.now children.now text.now)) (λ e. Fails rows.now children.now text.now e) }
    {
        if rows.len() > MOST || children.len() > MOST || text.len() > MOST {
            return Err(unlawful(0));
        }
        let mut own = prepared(alloc, rows.len() as u32, children, text)?;
        add_rows(&mut own, rows)?;
        Ok(Table { own })
    }
}

// Captures refuse alike. One function for both would be given the reason and the layer, and be `Fault::new` again.
fn unlawful(row: usize) -> Failure
    requires { row ≤ 65535 }
    ensures { result ≡ Refused (faulted UnlawfulTable 4 row) }
{
    let fault = Fault::new(Reason::UnlawfulTable, <Table as Store>::LAYER, row as u32);
    Failure::Refused(fault)
}

/// An arena with these child entries and this text, and space for so many rows.
fn prepared(alloc: Global, rows: u32, children: &[u32], text: &[u8]) -> Result<Arena, AllocError>
    requires few_rows { rows ≤ 65535 }
    requires few_children { length children.now ≤ 65535 }
    requires few_bytes { length text.now ≤ 65535 }
    ensures { IfOk result (λ a. Prepared rows children.now text.now a) }
{
    let space = Space {
        trees: rows,
        children: children.len() as u32,
        bytes: text.len() as u32,
    };
    let mut own = Arena::open(alloc, 0, space)?;
    own.fill(children, text).unwrap();
    Ok(own)
}

/// Adds the rows to an empty arena that has space for just so many, or refuses by the first unlawful one.
fn add_rows(own: &mut Arena, rows: &[RawRow]) -> Result<(), Failure>
    requires ground { own.old.base ≡ 0 }
    requires empty { own.old.rows.items ≡ [] }
    requires room { own.old.space.trees ≡ length rows.now }
    requires few { length rows.now ≤ 65535 }
    ensures { MatchResult result (λ _. Full own.old rows.now own.new) (λ e. Stopped own.old rows.now e) }
{
    for (index, raw) in rows.iter().enumerate() {
        add_row(own, *raw).ok_or(unlawful(index))?;
    }
    Ok(())
}

/// Adds one row, and gives its handle, if it is lawful.
fn add_row(own: &mut Arena, raw: RawRow) -> Option<u32>
    requires { 1 ≤ own.old.space.trees }
    ensures { Took own.old raw result own.new }
{
    let row = Row::try_from(raw).ok()?;
    own.append(row)
}
