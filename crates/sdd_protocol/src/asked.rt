ghost use Rattle.std.specs.Prelude.{◌≡◌, ◌==◌, ◌≤◌, length, All, Some, IfOk};
ghost use Rattle.sdd_protocol.specs.FragmentMarks.{is_marked, AreMarks};
ghost use Rattle.sdd_protocol.specs.Conditions.{is_read_at, is_asked};

use sdd_base::{ClassNo, DmNo, FragNo, NoMemory};
use sdd_catalog::Catalogue;
use std::alloc::Global;
use std::marker::Model;

/// The fragments that an attempt reads at a data module, as marks by number.
#[derive(Drop)]
pub(crate) struct Asked {
    marks: Vec<bool>,
}

impl Model for Asked {
    ghost use Rattle.std.specs.Prelude.{Bool, List};

    ghost Value = { List Bool };

    ghost view = { λ a. a.marks.items };
}

impl Asked {
    /// Those of the fragments that the class reads at the module. Costs time in the catalogue's
    /// fragments, and in the given ones times what the class reads.
    pub(crate) fn of(
        alloc: Global,
        catalogue: &Catalogue,
        class: ClassNo,
        dm: DmNo,
        frags: &[FragNo],
    ) -> Result<Asked, NoMemory>
        requires class { class.0 ≤ length catalogue.now.classes }
        requires frags { All (λ f. (1 ≤ f.0) × (f.0 ≤ length catalogue.now.fragments)) frags.now }
        ensures { IfOk result (λ asked. AreMarks (is_asked catalogue.now class.0 dm.0 frags.now) asked) }
    {
        catalogue.law_is_sound();
        let mut marks = vec![in alloc; false; catalogue.fragments() as usize + 1]?;
        for frag in frags {
            if is_read_at(catalogue, class, dm, *frag) {
                marks[frag.0 as usize] = true;
            }
        }
        Ok(Asked { marks })
    }

    /// Whether the fragment is one of them.
    pub(crate) fn has(&self, frag: FragNo) -> bool
        ensures { result ≡ is_marked self.now frag.0 }
    {
        match self.marks.get(frag.0 as usize) {
            Some(mark) => *mark,
            None => false,
        }
    }
}

fn is_read_at(catalogue: &Catalogue, class: ClassNo, dm: DmNo, frag: FragNo) -> bool
    requires class { class.0 ≤ length catalogue.now.classes }
    requires from { 1 ≤ frag.0 }
    requires to { frag.0 ≤ length catalogue.now.fragments }
    ensures { result ≡ is_read_at catalogue.now class.0 dm.0 frag.0 }
{
    catalogue.reads_at(class, frag) == Some(dm)
}
