ghost use Rattle.std.specs.Prelude.{◌≡◌, ◌+◌, ◌≤◌, length, IfOk, MatchResult};
ghost use Rattle.script.specs.Calls.{asked_store};
ghost use Rattle.arena.specs.Arenas.{means_over};
ghost use Rattle.overlay.specs.Overlays.{opened};
ghost use Rattle.answers.specs.Answers.{said};
ghost use Rattle.types.specs.Tables.{rows_of};
ghost use Rattle.validation.specs.Validating.{Validated};
ghost use Rattle.probe.specs.Performing.{Performs};
ghost use Rattle.probe.specs.Piles.{pile_meaning, pile_height, pile_layer};

use crate::calls::perform;
use answers::Answer;
use forest::{Failure, Space, Store};
use overlay::Overlay;
use script::StoreCall;
use std::alloc::Global;
use types::TypeRows;
use validation::validate;

/// So many overlays may stand one over the other.
const MOST_OVERLAYS: u8 = 4;

/// A store with up to four overlays, one over the other.
#[derive(Drop)]
pub enum Pile<S: Store + Drop> {
    Bare(S),
    /// The overlay that stands for all of them, which is renewed for each after the first, and how many they are.
    Covered { top: Overlay<S>, overlays: u8 },
}

impl<S: Store + Drop> Pile<S> {
    /// Performs a call on what stands on top.
    pub fn perform(&mut self, alloc: Global, call: &StoreCall) -> Answer
        ensures answer { Performs (pile_layer S.Store.LAYER self.old) (asked_store call.now) (pile_meaning S.Store.means self.old) (said result) (pile_meaning S.Store.means self.new) }
        ensures layer { pile_layer S.Store.LAYER self.new ≡ pile_layer S.Store.LAYER self.old }
    {
        match self {
            Pile::Bare(store) => perform(alloc, store, call),
            Pile::Covered { top, .. } => perform(alloc, top, call),
        }
    }

    /// Refuses handles of what stands on top whose forest does not belong to a root.
    pub fn validate(
        &self,
        alloc: Global,
        types: TypeRows,
        root: u32,
        handles: &[u32],
    ) -> Result<(), Failure>
        ensures { Validated (rows_of types) root (pile_meaning S.Store.means self.now).trees handles.now result }
    {
        match self {
            Pile::Bare(store) => validate(alloc, store, types, root, handles),
            Pile::Covered { top, .. } => validate(alloc, top, types, root, handles),
        }
    }

    /// Opens an overlay on top, or gives the pile back where memory is short, where child entries or text would pass a million, or where four
    /// stand there already.
    pub fn overlay(self, alloc: Global, allowances: Space) -> Result<Pile<S>, Pile<S>>
        ensures covered { MatchResult result (λ p. (pile_layer S.Store.LAYER p ≡ 6) × (pile_meaning S.Store.means p ≡ record { trees = (pile_meaning S.Store.means self).trees; space = opened (length (pile_meaning S.Store.means self).trees) allowances })) (λ p. p ≡ self) }
        ensures few { IfOk result (λ p. (pile_height p ≡ pile_height self + 1) × (pile_height p ≤ 4)) }
    {
        match self {
            // A closure gives the pile back, since the check can't state a variant of a type parameter that is passed to be called.
            Pile::Bare(store) => first_overlay(alloc, store, allowances)
                .map(|top| Pile::Covered { top, overlays: 1 })
                .map_err(|store| Pile::Bare(store)),
            Pile::Covered { top, overlays } if overlays < MOST_OVERLAYS => top
                .renew(alloc, allowances)
                .map(|top| Pile::Covered {
                    top,
                    overlays: overlays + 1,
                })
                .map_err(|top| Pile::Covered { top, overlays }),
            full => Err(full),
        }
    }
}

/// Opens the first overlay of a pile. It takes memory for those that may come after it too, for as many of them as there is memory for.
fn first_overlay<S: Store + Drop>(
    alloc: Global,
    mut store: S,
    allowances: Space,
) -> Result<Overlay<S>, S>
    ensures { MatchResult result (λ t. means_over (S.Store.means t.below).trees t.own ≡ record { trees = (S.Store.means store).trees; space = opened (length (S.Store.means store).trees) allowances }) (λ s. s ≡ store) }
{
    for renewals in (0..MOST_OVERLAYS).rev() {
        match Overlay::open_with_room(alloc, store, allowances, renewals) {
            Ok(top) => return Ok(top),
            Err(below) => store = below,
        }
    }
    Err(store)
}
