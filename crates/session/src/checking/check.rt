ghost use Rattle.std.specs.Prelude.{MatchResult};
ghost use Rattle.typing.specs.OneAnswer.{OneAnswer};
ghost use Rattle.evaluation.specs.Laws.{RunLaws};
ghost use Rattle.evaluation.specs.Promises.{Promises, NotAccepted};
ghost use Rattle.evaluation.specs.Worked.{WorkedCases};
ghost use Rattle.session.specs.Calls.{tables};
ghost use Rattle.session.specs.CheckCall.{CheckCall, all_types};

use crate::checking::functions::type_all;
use crate::checking::guard::Guard;
use crate::checking::readiness::ready;
use crate::checking::scope::State;
use crate::session::{Phase, Session};
use arrayvec::ArrayVec;
use typing::{QueryType, TypeFault};

impl Session {
    /// Checks the query: types every function and the query, and answers the type of the query. An accepted check stands until a call that adds
    /// or changes a row is accepted. What it promises of runs holds from then on.
    pub fn check(&mut self) -> Result<QueryType, TypeFault>
        ensures answer { CheckCall (tables self.old) result (tables self.new) }
        ensures promises { MatchResult result (λ a. Promises (tables self.old).types (tables self.old).program a (all_types (tables self.new))) (λ _. NotAccepted (tables self.old).types (tables self.old).program) }
        ensures one_answer { OneAnswer }
        ensures runs { RunLaws }
        ensures worked { WorkedCases }
    {
        self.type_program()
    }

    /// Types every function and the query.
    fn type_program(&mut self) -> Result<QueryType, TypeFault>
        ensures { CheckCall (tables self.old) result (tables self.new) }
    {
        self.types.drop_made();
        self.phase = Phase::Open;
        let query = ready(&self.program, self.types.declared_rows())?;
        let mut state = State {
            variables: ArrayVec::new(),
            error: false,
        };
        let mut guard = Guard {
            counts: &mut self.types.counts,
            accepted: false,
        };
        let row = type_all(
            &self.program,
            &mut self.types.rows,
            guard.counts,
            &mut state,
            query,
        )?;
        guard.accepted = true;
        let made = guard.counts.all - guard.counts.declared;
        self.phase = Phase::Checked;
        Ok(QueryType {
            row,
            made,
            error: state.error,
        })
    }
}
