ghost use Rattle.std.specs.Prelude.{◌≡◌};
ghost use Rattle.sdd_shell.specs.Status.{number_of_status};

use sdd_lang::{CatError, CatFault, NoMemory, ReadError};
use sdd_script::{WorkError, WorkFault};

/// How a call ended.
#[derive(Clone, Copy, PartialEq, Eq)]
pub enum Status {
    /// All of the text was taken.
    Done,
    /// The words are none of the forms.
    Usage,
    /// The catalogue has a fault, which is the first one.
    BadCatalogue(CatFault),
    /// The workload has a fault, which is the first one.
    BadWorkload(WorkFault),
    /// A call of the shelf failed.
    ReadFault,
    /// A call of the sink for the text failed; the sink took a first part of it.
    WriteFault,
    NoMemory,
    /// There is no number left for the next event of the run, or for the next message of a link.
    Limit,
}

impl Status {
    /// The number that the process ends with.
    pub fn number(&self) -> u8
        ensures { result ≡ number_of_status self.now }
    {
        match self {
            Status::Done => 0,
            Status::Usage => 2,
            Status::BadCatalogue(_) => 3,
            Status::BadWorkload(_) => 4,
            Status::ReadFault => 6,
            Status::WriteFault => 7,
            Status::NoMemory => 8,
            Status::Limit => 5,
        }
    }
}

impl From<NoMemory> for Status {
    ghost use Rattle.std.specs.Prelude.{◌≡◌};
    ghost use Rattle.sdd_shell.specs.declared.status.Status.TheVariants.{NoMemory};

    ghost from_gives = { λ _ status. status ≡ NoMemory };

    fn from(_error: NoMemory) -> Self {
        Status::NoMemory
    }
}

impl From<ReadError> for Status {
    ghost use Rattle.std.specs.Prelude.{◌≡◌};
    ghost use Rattle.sdd_shell.specs.Verdict.{status_of_reading};

    ghost from_gives = { λ error status. status ≡ status_of_reading error };

    fn from(error: ReadError) -> Self {
        match error {
            ReadError::Fault => Status::ReadFault,
            ReadError::NoMemory => Status::NoMemory,
        }
    }
}

impl From<CatError> for Status {
    ghost use Rattle.std.specs.Prelude.{◌≡◌};
    ghost use Rattle.sdd_shell.specs.Verdict.{status_of_catalogue};

    ghost from_gives = { λ error status. status ≡ status_of_catalogue error };

    fn from(error: CatError) -> Self {
        match error {
            CatError::Fault(fault) => Status::BadCatalogue(fault),
            CatError::NoMemory => Status::NoMemory,
        }
    }
}

impl From<WorkError> for Status {
    ghost use Rattle.std.specs.Prelude.{◌≡◌};
    ghost use Rattle.sdd_shell.specs.Verdict.{status_of_workload};

    ghost from_gives = { λ error status. status ≡ status_of_workload error };

    fn from(error: WorkError) -> Self {
        match error {
            WorkError::Fault(fault) => Status::BadWorkload(fault),
            WorkError::NoMemory => Status::NoMemory,
        }
    }
}
