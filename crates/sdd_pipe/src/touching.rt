ghost use Rattle.std.specs.Prelude.{◌≡◌, ◌==◌};
ghost use Rattle.std.specs.List.{list_any};
ghost use Rattle.sdd_pipe.specs.Pipe.{touches};

use sdd_base::{Change, FragNo};

/// Whether some of the changes is of one of the fragments. Costs time in the changes times the
/// fragments.
pub fn touches(frags: &[FragNo], changes: &[Change]) -> bool
    ensures { result ≡ touches frags.now changes.now }
{
    changes.iter().any(|change| is_among(frags, change.frag))
}

fn is_among(frags: &[FragNo], frag: FragNo) -> bool
    ensures { result ≡ list_any (λ f. f.0 == frag.0) frags.now }
{
    frags.iter().any(|one| one.0 == frag.0)
}
