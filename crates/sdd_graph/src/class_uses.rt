ghost use Rattle.std.specs.Prelude.{◌≡◌, IfOk};
ghost use Rattle.sdd_graph.specs.Edges.{IsClassOf};
ghost use Rattle.sdd_graph.specs.Uses.{reads_of, written_by, class_uses};

use sdd_base::{ClassNo, FragNo, Listed, NoMemory};
use sdd_catalog::Catalogue;
use std::alloc::Global;

/// What a class reads and writes.
#[derive(Drop)]
pub(crate) struct ClassUses {
    /// The fragments that it reads, ascending.
    pub(crate) reads: Listed<u32>,
    /// For each fragment, ascending, whether it is written.
    pub(crate) written: Listed<bool>,
}

/// What the class reads and writes.
pub(crate) fn class_uses(
    alloc: Global,
    catalogue: &Catalogue,
    class: ClassNo,
) -> Result<ClassUses, NoMemory>
    requires { IsClassOf catalogue.now class.0 }
    ensures { IfOk result (λ uses. uses ≡ class_uses catalogue.now class.0) }
{
    Ok(ClassUses {
        reads: reads_of(alloc, catalogue, class)?,
        written: written_by(alloc, catalogue, class)?,
    })
}

/// The fragments that the class reads. Costs time in the fragments times the reads.
fn reads_of(alloc: Global, catalogue: &Catalogue, class: ClassNo) -> Result<Listed<u32>, NoMemory>
    requires { IsClassOf catalogue.now class.0 }
    ensures { IfOk result (λ reads. reads ≡ reads_of catalogue.now class.0) }
{
    catalogue.law_is_sound();
    let mut reads = Vec::new(alloc);
    for f in 1..catalogue.fragments() + 1 {
        if catalogue.reads_at(class, FragNo(f)).is_some() {
            reads.push(f)?;
        }
    }
    Ok(Listed::from_vec(reads))
}

/// For each fragment whether the class writes it. Costs time in the fragments and in the writes.
fn written_by(
    alloc: Global,
    catalogue: &Catalogue,
    class: ClassNo,
) -> Result<Listed<bool>, NoMemory>
    requires { IsClassOf catalogue.now class.0 }
    ensures { IfOk result (λ written. written ≡ written_by catalogue.now class.0) }
{
    catalogue.law_is_sound();
    let mut written = vec![in alloc; false; catalogue.fragments() as usize]?;
    for frag in catalogue.class(class).writes.as_slice() {
        written[frag.0 as usize - 1] = true;
    }
    Ok(Listed::from_vec(written))
}
