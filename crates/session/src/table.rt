//! A table of rows.
ghost use Rattle.std.specs.Prelude.{◌≡◌, ◌+◌, ◌<◌, ◌≤◌, ◌↔◌, [], ◌∷◌, ◌++◌, length, slice_get, slice_set, IsOk, OnOk, OnErr};

use arrayvec::CapacityError;
use std::marker::Model;

/// At most `N` rows, which lie in place. Behind those that are there may lie old ones, where nothing can reach them: so a table is
/// cleared by its count alone.
#[derive(Drop)]
pub(crate) struct Table<T, const N: usize> {
    rows: [T; N],
    count: usize,
}

impl<T, const N: usize> Model for Table<T, N> {
    ghost use Rattle.std.specs.Prelude.{◌≡◌, ◌≤◌, length, take};
    ghost use Rattle.session.specs.Held.{Held, held_code};

    ghost Value = { Held T };

    ghost coded = { held_code T.code };

    ghost view = { λ table. record { items = take table.count table.rows } };

    ghost invariant = { λ table. (table.count ≤ N) × (length table.rows ≡ N) };
}

impl<T: Copy + Default, const N: usize> Table<T, N> {
    /// A table with no rows.
    pub(crate) fn new() -> Self
        ensures { result.items ≡ [] }
    {
        Table {
            rows: [T::default(); N],
            count: 0,
        }
    }
}

impl<T: Copy, const N: usize> Table<T, N> {
    /// The number of rows.
    pub(crate) fn len(&self) -> usize
        ensures value { result ≡ length self.now.items }
        ensures fits { result ≤ N }
    {
        self.count
    }

    /// The rows.
    pub(crate) fn as_slice(&self) -> &[T]
        ensures value { result.now ≡ self.now.items }
        ensures fits { length result.now ≤ N }
    {
        &self.rows[..self.count]
    }

    /// The row at a place, if it is there.
    pub(crate) fn get(&self, place: usize) -> Option<T>
        ensures { result ≡ slice_get self.now.items place }
    {
        self.as_slice().get(place).copied()
    }

    /// One row more.
    pub(crate) fn push(&mut self, row: T)
        requires { length self.old.items < N }
        ensures items { self.new.items ≡ self.old.items ++ (row ∷ []) }
        ensures len { length self.new.items ≡ length self.old.items + 1 }
    {
        self.rows[self.count] = row;
        self.count += 1;
    }

    /// Another row at a place; every other row stays.
    pub(crate) fn set(&mut self, place: usize, row: T)
        requires { place < length self.old.items }
        ensures { self.new.items ≡ slice_set self.old.items place row }
    {
        let rows = &mut self.rows[..self.count];
        rows[place] = row;
    }

    /// More rows behind the others, if there is room for all of them.
    pub(crate) fn try_extend_from_slice(&mut self, more: &[T]) -> Result<(), CapacityError>
        ensures variant { IsOk result ↔ (length self.old.items + length more.now ≤ N) }
        ensures ok { OnOk result (self.new.items ≡ self.old.items ++ more.now) }
        ensures len { OnOk result (length self.new.items ≡ length self.old.items + length more.now) }
        ensures err { OnErr result (self.new ≡ self.old) }
    {
        if N - self.count < more.len() {
            return Err(CapacityError::new(()));
        }
        let end = self.count + more.len();
        let rows = &mut self.rows[..];
        rows[self.count..end].copy_from_slice(more);
        self.count = end;
        Ok(())
    }

    /// Takes all rows away: the count alone goes to 0.
    pub(crate) fn clear(&mut self)
        ensures { self.new.items ≡ [] }
    {
        self.count = 0;
    }
}
