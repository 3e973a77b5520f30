//! Questions about a catalogue.
ghost use Rattle.std.specs.Prelude.{IfOk};
ghost use Rattle.sdd_shell.specs.Requests.{AnswersRequest, about_catalogue};
ghost use Rattle.sdd_shell.specs.States.{shelf_by};
ghost use Rattle.sdd_app_ask.specs.Answer.{AnswersQuestion};

use crate::asked::Question;
use sdd_ask::{needs_text, robust_text};
use sdd_lang::{Catalogue, NoMemory, Pages, Shelf};
use sdd_shell::{Status, accepted_catalogue};
use std::alloc::Global;

/// The answer for the catalogue.
fn answer_text(
    alloc: Global,
    catalogue: &Catalogue,
    question: Question,
) -> Result<Vec<u8>, NoMemory>
    ensures { IfOk result (λ text. AnswersQuestion question catalogue.now text.items) }
{
    match question {
        Question::Robust => robust_text(alloc, catalogue),
        Question::Needs => needs_text(alloc, catalogue),
    }
}

/// The answer for the catalogue in the file.
pub fn question_answer<S: Shelf>(
    alloc: Global,
    shelf: &mut S,
    catalogue: &str,
    question: Question,
) -> Result<Pages, Status>
    ensures { AnswersRequest (about_catalogue catalogue.now (AnswersQuestion question))
        (shelf_by S.files S.is_open S.opened S.faults S.sure shelf.old)
        (shelf_by S.files S.is_open S.opened S.faults S.sure shelf.new) result }
{
    let catalogue = accepted_catalogue(alloc, shelf, catalogue)?;
    Ok(Pages::of(alloc, answer_text(alloc, &catalogue, question)?))
}
