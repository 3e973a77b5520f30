ghost use Rattle.std.specs.Prelude.{◌≡◌, ◌++◌, IfOk};

use sdd_lang::{ClassPart, NoMemory, Parcel};

/// The classes with copies of the others after them.
pub(crate) fn with_copies(
    mut all: Vec<ClassPart>,
    others: &[ClassPart],
) -> Result<Vec<ClassPart>, NoMemory>
    ensures { IfOk result (λ both. both.items ≡ all.items ++ others.now) }
{
    for class in others {
        all.push(class.copy()?)?;
    }
    Ok(all)
}
