//! Statements, by the first words of their lines and the words after them.
ghost use Rattle.std.specs.Prelude.{◌≡◌};
ghost use Rattle.sdd_lang.specs.All.{GivesReading};
ghost use Rattle.sdd_script.specs.Few.{short};
ghost use Rattle.sdd_script.specs.Rules.{rule_in};
ghost use Rattle.sdd_script.specs.Statements.{put_of, statement_of};

use crate::deletes::read_delete;
use crate::fault::{LineError, WorkRule, must, refuse};
use crate::keyword::StatementKey;
use crate::queries::read_query;
use crate::updates::read_update;
use crate::values::read_row;
use sdd_lang::{Catalogue, Stmt};
use sdd_words::{Tokens, are_free, is_free};
use std::alloc::Global;

/// A put, by a relation and values.
#[tactic(auto, using(crate::proofs::Shortened::fails_at))]
fn read_put(alloc: Global, catalogue: &Catalogue, words: &mut Tokens<'_>) -> Result<Stmt, LineError>
    ensures { GivesReading rule_in (λ s. s) result (short (put_of catalogue.now words.old)) }
{
    match words.next() {
        None => refuse(WorkRule::BadLine),
        Some(name) => {
            must(WorkRule::BadLine, is_free(&name) && are_free(words))?;
            let (rel, row) = read_row(alloc, catalogue, &name, words)?;
            Ok(Stmt::Put { rel, row })
        }
    }
}

/// A statement, by its first word and the words after it; of what is too many in it no more than the
/// first ones, which tell that it is.
pub fn read_statement(
    alloc: Global,
    catalogue: &Catalogue,
    key: StatementKey,
    words: &mut Tokens<'_>,
) -> Result<Stmt, LineError>
    ensures { GivesReading rule_in (λ s. s) result (short (statement_of key catalogue.now words.old)) }
{
    match key {
        StatementKey::Put => read_put(alloc, catalogue, words),
        StatementKey::Query => read_query(alloc, catalogue, words),
        StatementKey::Update => read_update(alloc, catalogue, words),
        StatementKey::Delete => read_delete(alloc, catalogue, words),
    }
}
