use sdd_base::NoMemory;
use std::alloc::{AllocError, AllocFailed};
use thiserror::Error;

/// Why a run ends before its schedule does.
#[derive(Clone, Copy, Debug, Error)]
pub enum WorldEnd {
    /// There is no number left for the next event, or for the next message of a link.
    #[error("limit")]
    Limit,
    /// Out of memory.
    #[error("no memory")]
    NoMemory,
}

impl From<NoMemory> for WorldEnd {
    ghost use Rattle.std.specs.Prelude.{◌≡◌};
    ghost use Rattle.sdd_sites.specs.declared.ends.WorldEnd.TheVariants.{NoMemory};

    ghost from_gives = { λ _ e. e ≡ NoMemory };

    fn from(_error: NoMemory) -> Self {
        WorldEnd::NoMemory
    }
}

impl From<AllocError> for WorldEnd {
    ghost use Rattle.std.specs.Prelude.{◌≡◌};
    ghost use Rattle.sdd_sites.specs.declared.ends.WorldEnd.TheVariants.{NoMemory};

    ghost from_gives = { λ _ e. e ≡ NoMemory };

    fn from(_error: AllocError) -> Self {
        WorldEnd::NoMemory
    }
}

impl<T: Drop> From<AllocFailed<T>> for WorldEnd {
    ghost use Rattle.std.specs.Prelude.{◌≡◌};
    ghost use Rattle.sdd_sites.specs.declared.ends.WorldEnd.TheVariants.{NoMemory};

    ghost from_gives = { λ _ e. e ≡ NoMemory };

    fn from(_error: AllocFailed<T>) -> Self {
        WorldEnd::NoMemory
    }
}
