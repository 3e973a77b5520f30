ghost use Rattle.std.specs.Prelude.{◌≡◌};
ghost use Rattle.sdd_laws.specs.Committed.{counts};

use sdd_lang::{Change, FragNo};

/// Whether a copy of the fragment takes a change of a committed transaction: it does where the
/// transaction is applied at the copy's module and the change is of the fragment.
pub fn counts(applied: bool, change: &Change, frag: FragNo) -> bool
    ensures { result ≡ counts applied frag.0 change.now }
{
    applied && change.frag.0 == frag.0
}
