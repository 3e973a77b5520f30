//! Lists of which no more are kept than tell that they are too many.
ghost use Rattle.std.specs.Prelude.{◌≡◌, ◌≤◌, ◌+◌, ◌++◌, ◌∷◌, [], length, take, IfOk};

use sdd_lang::NoMemory;

/// Adds an item where there are no more than the most.
pub fn keep_few<T: Drop>(kept: &mut Vec<T>, most: usize, item: T) -> Result<(), NoMemory>
    requires { length kept.old.items ≤ most + 1 }
    ensures { IfOk result (λ _. kept.new.items ≡ take (most + 1) (kept.old.items ++ item ∷ [])) }
{
    if kept.len() <= most {
        kept.push(item)?;
    }
    Ok(())
}
