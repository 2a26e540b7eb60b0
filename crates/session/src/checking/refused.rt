ghost use Rattle.std.specs.Prelude.{◌≡◌, ◌≤◌, length, take, MatchOption};
ghost use Rattle.session.specs.Calls.{tables};
ghost use Rattle.session.specs.Refusals.{Accepts, Refuses};

use crate::checking::functions::type_all;
use crate::checking::readiness::ready;
use crate::checking::scope::State;
use crate::counts::Counts;
use crate::session::Session;
use arrayvec::ArrayVec;
use rows::TypeRow;
use typing::TypeFault;

/// Why a check is refused, and the type rows that are there when it stops: the declared ones, and behind them those that it has made.
#[derive(Clone, Copy)]
pub struct Refused {
    pub fault: TypeFault,
    rows: [TypeRow; 512],
    count: u32,
    ghost long: { length rows ≡ 512 },
    ghost few: { count ≤ 512 },
}

impl Refused {
    pub fn rows(&self) -> &[TypeRow]
        ensures { result.now ≡ take self.now.count self.now.rows }
    {
        &self.rows[..self.count as usize]
    }
}

impl Session {
    /// Why a check is refused, if it is. The session stays as it is, and a check that stands goes on standing.
    pub fn refused(&self) -> Option<Refused>
        ensures { MatchOption result (Accepts (tables self.now)) (λ r. Refuses (tables self.now) r.fault) }
    {
        let declared = self.types.declared_rows();
        let mut rows = declared.rows;
        let mut counts = Counts {
            declared: declared.count,
            all: declared.count,
        };
        let mut state = State {
            variables: ArrayVec::new(),
            error: false,
        };
        let query = match ready(&self.program, declared) {
            Ok(query) => query,
            Err(fault) => {
                return Some(Refused {
                    fault,
                    rows,
                    count: counts.all,
                });
            }
        };
        match type_all(&self.program, &mut rows, &mut counts, &mut state, query) {
            Ok(_) => None,
            Err(fault) => Some(Refused {
                fault,
                rows,
                count: counts.all,
            }),
        }
    }
}
