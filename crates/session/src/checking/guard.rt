ghost use Rattle.std.specs.Prelude.{◌≡◌, cond};

use crate::counts::Counts;

/// Puts the count of rows back to the declared ones when it is dropped, unless the check was accepted: so every way out of a refused
/// check leaves the table as it was.
pub(crate) struct Guard<'a> {
    pub(crate) counts: &'a mut Counts,
    pub(crate) accepted: bool,
}

impl Drop for Guard<'_> {
    fn drop(self)
        ensures declared { self.exit.0.now.declared ≡ self.entry.counts.now.declared }
        ensures all { self.exit.0.now.all ≡ cond self.entry.accepted self.entry.counts.now.all self.entry.counts.now.declared }
    {
        if !self.accepted {
            self.counts.all = self.counts.declared;
        }
        let Guard {
            counts: _,
            accepted: _,
        } = self;
    }
}
