ghost use Rattle.std.specs.Prelude.{◌≡◌};
ghost use Rattle.types.specs.Determinism.{overlaps};
ghost use Rattle.types.specs.Places.{covers};

use rows::TypeRow;

/// Whether some item is asked for by both rows.
pub fn overlap(x: TypeRow, y: TypeRow) -> bool
    ensures { result ≡ overlaps x y }
{
    match (x, y) {
        (TypeRow::Integer, TypeRow::Integer)
        | (TypeRow::String, TypeRow::String)
        | (TypeRow::Boolean, TypeRow::Boolean) => true,
        (TypeRow::Element { tag, .. }, TypeRow::Element { tag: other, .. }) => tag == other,
        (TypeRow::AnyElement { .. }, TypeRow::Element { .. } | TypeRow::AnyElement { .. }) => true,
        (TypeRow::Element { .. }, TypeRow::AnyElement { .. }) => true,
        _ => false,
    }
}

/// Whether the second row asks for every item that the first asks for, contents aside.
pub fn cover(x: TypeRow, y: TypeRow) -> bool
    ensures { result ≡ covers x y }
{
    match (x, y) {
        (TypeRow::AnyElement { .. }, TypeRow::Element { .. }) => false,
        _ => overlap(x, y),
    }
}
