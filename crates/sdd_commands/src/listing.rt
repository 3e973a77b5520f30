//! The commands that print what is in a catalogue.
ghost use Rattle.std.specs.Prelude.{◌≡◌, IfOk};
ghost use Rattle.sdd_shell.specs.Requests.{AnswersRequest, about_catalogue};
ghost use Rattle.sdd_shell.specs.States.{shelf_by};
ghost use Rattle.sdd_commands.specs.Listing.{Tells};

use crate::check::counts;
use crate::edges::{graph_text, table_text};
use sdd_advise::advice_text;
use sdd_lang::{Catalogue, NoMemory, Pages, Shelf};
use sdd_protocol::table;
use sdd_shell::{Status, accepted_catalogue};
use std::alloc::Global;

/// What may be printed of a catalogue.
#[derive(Clone, Copy)]
pub enum Listing {
    /// How many modules, relations, fragments and classes there are.
    Counts,
    /// The edges of the conflict graph with their blocks.
    Graph,
    /// The diagonal edges with their protocols.
    Table,
    /// Why each diagonal edge has its protocol.
    Advice,
}

/// What is printed of the catalogue.
fn print_listing(
    alloc: Global,
    catalogue: &Catalogue,
    listing: Listing,
) -> Result<Vec<u8>, NoMemory>
    ensures { IfOk result (λ v. Tells listing catalogue.now v.items) }
{
    match listing {
        Listing::Counts => counts(alloc, catalogue),
        Listing::Graph => {
            let table = table(alloc, catalogue)?;
            graph_text(alloc, catalogue, &table)
        }
        Listing::Table => {
            let table = table(alloc, catalogue)?;
            table_text(alloc, catalogue, &table)
        }
        Listing::Advice => advice_text(alloc, catalogue),
    }
}

/// What a command prints of the catalogue in the file.
pub fn listing_answer<S: Shelf>(
    alloc: Global,
    shelf: &mut S,
    catalogue: &str,
    listing: Listing,
) -> Result<Pages, Status>
    ensures { AnswersRequest (about_catalogue catalogue.now (Tells listing))
        (shelf_by S.files S.is_open S.opened S.faults S.sure shelf.old)
        (shelf_by S.files S.is_open S.opened S.faults S.sure shelf.new) result }
{
    let catalogue = accepted_catalogue(alloc, shelf, catalogue)?;
    Ok(Pages::of(alloc, print_listing(alloc, &catalogue, listing)?))
}
