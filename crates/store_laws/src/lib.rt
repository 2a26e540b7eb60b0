#![tactic(auto)]

ghost use Rattle.std.specs.Prelude.{◌≡◌, ℕ, true, Ok, Err, MatchResult};
ghost use Rattle.store_laws.specs.Laws.{BothStand, RefusedOne, MadeElement};

use forest::{Fault, Kind, Store};

/// Makes two Integers in any store, one after the other, and gives their handles: both stand, and so does every tree from before.
pub fn make_two<S: Store>(store: &mut S, first: i64, second: i64) -> Result<(u32, u32), Fault>
    ensures { MatchResult result (λ p. BothStand (S.Store.means store.old) (S.Store.means store.new) first second p.0 p.1) (λ f. RefusedOne S.Store.LAYER (S.Store.means store.old) first second f (S.Store.means store.new)) }
{
    let one = store.make_integer(first)?;
    let two = store.make_integer(second)?;
    Ok((one, two))
}

/// Makes an element in any store and reads it back: its kind, its tag and its number of children are those asked for, so the answer is
/// never false.
pub fn make_and_compare<S: Store>(store: &mut S, tag: u32, children: &[u32]) -> Result<bool, Fault>
    ensures { MatchResult result (λ same. (same ≡ true) × ((h : ℕ) × MadeElement S.Store.LAYER (S.Store.means store.old) tag children.now (Ok h) (S.Store.means store.new))) (λ f. MadeElement S.Store.LAYER (S.Store.means store.old) tag children.now (Err f) (S.Store.means store.new)) }
{
    let handle = store.make_element(tag, children)?;
    Ok(
        store.kind(handle) == Some(Kind::Element)
            && u32::from(store.tag(handle)) == tag
            && store.child_count(handle) as usize == children.len(),
    )
}
