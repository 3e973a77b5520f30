//! Names of the parts of a catalogue, as texts have them.
ghost use Rattle.std.specs.Prelude.{◌≡◌, ◌≤◌, ◌++◌, length, OnOk};
ghost use Rattle.sdd_ask.specs.Naming.{class_name, fragment_name};

use sdd_base::{ClassNo, FragNo, NoMemory};
use sdd_catalog::Catalogue;
use sdd_words::put;

pub(crate) fn put_class(
    out: &mut Vec<u8>,
    catalogue: &Catalogue,
    class: ClassNo,
) -> Result<(), NoMemory>
    requires from { 1 ≤ class.0 }
    requires to { class.0 ≤ length catalogue.now.classes }
    ensures { OnOk result (out.new.items ≡ out.old.items ++ class_name catalogue.now class) }
{
    put(out, catalogue.class(class).name.as_str().as_bytes())
}

pub(crate) fn put_fragment(
    out: &mut Vec<u8>,
    catalogue: &Catalogue,
    frag: FragNo,
) -> Result<(), NoMemory>
    requires from { 1 ≤ frag.0 }
    requires to { frag.0 ≤ length catalogue.now.fragments }
    ensures { OnOk result (out.new.items ≡ out.old.items ++ fragment_name catalogue.now frag) }
{
    put(out, catalogue.fragment(frag).name.as_str().as_bytes())
}
