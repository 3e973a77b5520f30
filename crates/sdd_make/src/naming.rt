//! Names and texts of constants.
ghost use Rattle.std.specs.Prelude.{◌≡◌, ◌++◌, codes, IfOk};
ghost use Rattle.std.specs.Fmt.{decimal};
ghost use Rattle.sdd_script.specs.All.{IsName, IsText};

use sdd_script::{Name, NoMemory, Text};
use std::alloc::Global;

/// The name that a text spells.
pub fn name(alloc: Global, spelled: &str) -> Result<Name, NoMemory>
    requires { IsName spelled.now }
    ensures { IfOk result (λ n. n ≡ spelled.now) }
{
    match Name::new(alloc, spelled)? {
        Some(name) => Ok(name),
        None => unreachable!(),
    }
}

/// The text of these bytes.
pub fn text(alloc: Global, spelled: &str) -> Result<Text, NoMemory>
    requires { IsText spelled.now }
    ensures { IfOk result (λ t. t ≡ spelled.now) }
{
    match Text::new(alloc, spelled)? {
        Some(text) => Ok(text),
        None => unreachable!(),
    }
}

/// The name of transaction number i.
pub fn txn_name(alloc: Global, i: u32) -> Result<Name, NoMemory>
    ensures { IfOk result (λ n. n ≡ codes "t" ++ decimal i) }
{
    let spelled = format!(in alloc; "t{i}")?;
    name(alloc, spelled.as_str())
}
