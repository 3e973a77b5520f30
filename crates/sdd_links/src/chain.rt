ghost use Rattle.std.specs.Prelude.{◌≡◌, ◌++◌, None, OnOk};
ghost use Rattle.sdd_links.specs.Groups.{chain_after};

use sdd_lang::NoMemory;

/// Adds the links between neighbours in a list that differ.
pub fn add_chain(links: &mut Vec<(usize, usize)>, list: &[usize]) -> Result<(), NoMemory>
    ensures { OnOk result (links.new.items ≡ links.old.items ++ chain_after None list.now) }
{
    let mut before = None;
    for number in list {
        if let Some(before) = before {
            if before != *number {
                links.push((before, *number))?;
            }
        }
        before = Some(*number);
    }
    Ok(())
}
