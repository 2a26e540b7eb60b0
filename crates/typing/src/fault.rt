ghost use Rattle.std.specs.Prelude.{◌≡◌};
ghost use Rattle.typing.specs.Faults.{type_fault};

use forest::{Fault, Reason};

/// The layer of the check.
const CHECK: u8 = 2;

/// Why a check is refused: the fault, and the function that was being typed, if one was.
#[derive(Clone, Copy, PartialEq, Eq, Debug)]
pub struct TypeFault {
    pub fault: Fault,
    pub function: Option<u32>,
}

impl TypeFault {
    pub fn new(reason: Reason, row: u32, function: Option<u32>) -> TypeFault
        ensures { result ≡ type_fault reason row function }
    {
        TypeFault {
            fault: Fault::new(reason, CHECK, row),
            function,
        }
    }
}
