ghost use Rattle.std.specs.Prelude.{◌≡◌};
ghost use Rattle.typing.specs.Faults.{type_fault};

use forest::Reason;
use typing::TypeFault;

/// Where typing is: the expression row, and the function that is being typed.
#[derive(Clone, Copy)]
pub(crate) struct Spot {
    pub(crate) at: u32,
    pub(crate) function: Option<u32>,
}

impl Spot {
    /// A refusal here.
    pub(crate) fn fault(self, reason: Reason) -> TypeFault
        ensures { result ≡ type_fault reason self.at self.function }
    {
        TypeFault::new(reason, self.at, self.function)
    }
}
