ghost use Rattle.std.specs.Prelude.{◌≡◌};
ghost use Rattle.forest.specs.Stores.{kind_number};
ghost use Rattle.types.specs.Determinism.{label};
ghost use Rattle.validation.specs.Matching.{suits as suited};

use forest::Kind;
use rows::TypeRow;

/// Whether a row takes items of a kind and a tag, whatever their content.
pub(crate) fn suits(row: TypeRow, kind: Kind, tag: u16) -> bool
    ensures { result ≡ suited (label row) (kind_number kind) tag }
{
    match (row, kind) {
        (TypeRow::Integer, Kind::Integer)
        | (TypeRow::String, Kind::String)
        | (TypeRow::Boolean, Kind::Boolean)
        | (TypeRow::AnyElement { .. }, Kind::Element) => true,
        (TypeRow::Element { tag: wanted, .. }, Kind::Element) => wanted == u32::from(tag),
        _ => false,
    }
}
