//! Deletes, by the words after the first word of their lines.
ghost use Rattle.std.specs.Prelude.{◌≡◌, ◌∷◌, [], Some};
ghost use Rattle.sdd_lang.specs.All.{GivesReading};
ghost use Rattle.sdd_script.specs.Few.{short};
ghost use Rattle.sdd_script.specs.Rules.{rule_in};
ghost use Rattle.sdd_script.specs.Statements.{delete_over, delete_of_parts, delete_of};

use crate::columns::read_conditions;
use crate::fault::{LineError, WorkRule, must, refuse, require};
use crate::naming::part_of;
use sdd_lang::{Catalogue, Listed, RelNo, Stmt};
use sdd_words::{Comparisons, Token, Tokens, is_free, read_comparisons};
use std::alloc::Global;

fn read_delete_of(
    alloc: Global,
    catalogue: &Catalogue,
    rel: u8,
    words: &mut Comparisons<'_>,
) -> Result<Stmt, LineError>
    ensures { GivesReading rule_in (λ s. s) result (short (delete_over catalogue.now rel words.old)) }
{
    let conds = read_conditions(alloc, catalogue, &[Some(rel)], words)?;
    Ok(Stmt::Delete {
        rel: RelNo(u32::from(rel)),
        conds: Listed::from_vec(conds),
    })
}

#[tactic(auto, using(crate::proofs::Shortened::fails_at))]
fn read_delete_parts(
    alloc: Global,
    catalogue: &Catalogue,
    name: &Token<'_>,
    words: &mut Comparisons<'_>,
) -> Result<Stmt, LineError>
    ensures { GivesReading rule_in (λ s. s) result (short (delete_of_parts catalogue.now name.now words.old)) }
{
    let rel = require(WorkRule::UnknownName, part_of(catalogue, name))?;
    read_delete_of(alloc, catalogue, rel, words)
}

/// A delete, by its relation and its conditions; of too many the first ones.
pub fn read_delete(
    alloc: Global,
    catalogue: &Catalogue,
    words: &mut Tokens<'_>,
) -> Result<Stmt, LineError>
    ensures { GivesReading rule_in (λ s. s) result (short (delete_of catalogue.now words.old)) }
{
    match words.next() {
        None => refuse(WorkRule::BadLine),
        Some(name) => {
            must(WorkRule::BadLine, is_free(&name))?;
            match read_comparisons(words.copy()) {
                Some(mut words) => read_delete_parts(alloc, catalogue, &name, &mut words),
                None => refuse(WorkRule::BadLine),
            }
        }
    }
}
