ghost use Rattle.std.specs.Prelude.{◌≡◌, [], ◌∷◌, length, MatchResult};
ghost use Rattle.forest.specs.declared.failure.Failure.TheVariants.{OutOfMemory};
ghost use Rattle.script.specs.Calls.{asked_store};
ghost use Rattle.table.specs.Tables.{table_meaning};
ghost use Rattle.answers.specs.Answers.{said, done, failed};
ghost use Rattle.types.specs.Tables.{rows_of};
ghost use Rattle.validation.specs.Validating.{Validated};
ghost use Rattle.probe.specs.Probes.{state, Obeys, LoadsCapture, LoadsTable, Opens, OnStore, overlaid_by};

use crate::pile::Pile;
use answers::Answer;
use capture::Capture;
use forest::{Failure, Space, Store};
use script::StoreCall;
use std::alloc::Global;
use table::{RawRow, Table};
use types::TypeRows;

/// The store that calls are performed on: a table or a capture, with its overlays.
#[derive(Drop)]
pub enum Probe {
    OfTable(Pile<Table>),
    OfCapture(Pile<Capture>),
}

// An overlay takes the store that it is opened over, so a call takes the probe and gives it back.
impl Probe {
    /// A probe over the empty table.
    pub fn new(alloc: Global) -> Result<Probe, Failure>
        ensures { MatchResult result (λ p. state p ≡ record { layer = 4; meaning = table_meaning [] [] [] }) (λ f. f ≡ OutOfMemory) }
    {
        let empty = Table::load(alloc, &[], &[], &[])?;
        Ok(Probe::OfTable(Pile::Bare(empty)))
    }

    /// Performs a call, and gives the answer and the probe with its store as it is then.
    pub fn perform(mut self, alloc: Global, call: &StoreCall) -> (Probe, Answer)
        ensures { Obeys (asked_store call.now) (state self) (said result.1) (state result.0) }
    {
        match call {
            StoreCall::Capture(bytes) => self.load_capture(alloc, bytes),
            StoreCall::Table {
                rows,
                children,
                text,
            } => self.load_table(alloc, rows, children, text),
            StoreCall::Tray(allowances) => self.open_overlay(alloc, *allowances),
            _ => {
                let answer = self.perform_on_store(alloc, call);
                (self, answer)
            }
        }
    }

    /// A capture becomes the store; a refused one leaves it as it was.
    pub fn load_capture(self, alloc: Global, bytes: &[u8]) -> (Probe, Answer)
        ensures { LoadsCapture bytes.now (state self) (said result.1) (state result.0) }
    {
        self.replaced_by(Capture::load(alloc, bytes), |store| {
            Probe::OfCapture(Pile::Bare(store))
        })
    }

    /// Refuses handles of the store whose forest does not belong to a root.
    pub fn validate(
        &self,
        alloc: Global,
        types: TypeRows,
        root: u32,
        handles: &[u32],
    ) -> Result<(), Failure>
        ensures { Validated (rows_of types) root (state self.now).meaning.trees handles.now result }
    {
        match self {
            Probe::OfTable(pile) => pile.validate(alloc, types, root, handles),
            Probe::OfCapture(pile) => pile.validate(alloc, types, root, handles),
        }
    }

    /// A table becomes the store; a refused one leaves it as it was.
    fn load_table(
        self,
        alloc: Global,
        rows: &[RawRow],
        children: &[u32],
        text: &[u8],
    ) -> (Probe, Answer)
        ensures { LoadsTable rows.now children.now text.now (state self) (said result.1) (state result.0) }
    {
        self.replaced_by(Table::load(alloc, rows, children, text), |store| {
            Probe::OfTable(Pile::Bare(store))
        })
    }

    /// A probe over the store that was loaded, and its number of trees; or the probe as it is, and why none was loaded.
    fn replaced_by<S: Store + Drop, W: FnOnce(S) -> Probe>(
        self,
        loaded: Result<S, Failure>,
        over: W,
    ) -> (Probe, Answer)
        requires { W.IsAlwaysCallable over }
        ensures { MatchResult loaded (λ store. (said result.1 ≡ done (length (S.Store.means store).trees ∷ [])) × W.post over store result.0) (λ failure. (said result.1 ≡ failed failure) × (result.0 ≡ self)) }
    {
        match loaded {
            Ok(store) => {
                let answer = Answer::Number(store.count());
                (over(store), answer)
            }
            Err(failure) => (self, Answer::from(failure)),
        }
    }

    /// An overlay over the store becomes the store.
    fn open_overlay(self, alloc: Global, allowances: Space) -> (Probe, Answer)
        ensures { Opens allowances (state self) (said result.1) (state result.0) }
    {
        match self.overlay(alloc, allowances) {
            Ok(mut probe) => {
                let answer = probe.perform_on_store(alloc, &StoreCall::Space);
                (probe, answer)
            }
            Err(probe) => (probe, Answer::Unsupported),
        }
    }

    /// The probe with an overlay over its store; or as it was, where memory is short or four overlays stand there already.
    fn overlay(self, alloc: Global, allowances: Space) -> Result<Probe, Probe>
        ensures { MatchResult result (λ p. state p ≡ overlaid_by allowances (state self)) (λ p. p ≡ self) }
    {
        match self {
            Probe::OfTable(pile) => pile
                .overlay(alloc, allowances)
                .map(Probe::OfTable)
                .map_err(Probe::OfTable),
            Probe::OfCapture(pile) => pile
                .overlay(alloc, allowances)
                .map(Probe::OfCapture)
                .map_err(Probe::OfCapture),
        }
    }

    /// A call on the store itself.
    fn perform_on_store(&mut self, alloc: Global, call: &StoreCall) -> Answer
        ensures { OnStore (asked_store call.now) (state self.old) (said result) (state self.new) }
    {
        match self {
            Probe::OfTable(pile) => pile.perform(alloc, call),
            Probe::OfCapture(pile) => pile.perform(alloc, call),
        }
    }
}
