//! WRITEs that READs hold back.
ghost use Rattle.std.specs.Prelude.{◌≡◌, IfOk, IsTrue, filter_map, length, is_some, true};
ghost use Rattle.std.specs.List.{list_any, range_with_len};
ghost use Rattle.sdd_dm.specs.Heads.{holds_in, is_held_in, waits_at};
ghost use Rattle.sdd_dm.specs.Waiting.{holder_at, holders_in};

use crate::hints::Hints;
use crate::slots::waits_at;
use sdd_conditions::any_holds;
use sdd_module::{Change, ClassNo, Listed, Msg, NoMemory, Ts};
use sdd_pipe::Pipes;
use std::alloc::Global;

/// Numbers of classes.
pub type ClassNos = Listed<ClassNo>;

/// Whether the head of one class is a READ that waits and holds back a WRITE of another.
fn reader_holds(
    pipes: &Pipes,
    waits: &[bool],
    reader: ClassNo,
    class: ClassNo,
    write: Ts,
    changes: &[Change],
) -> bool
    ensures { result
        ≡ holds_in pipes.now.value waits.now class.0 write.0 changes.now reader.0 }
{
    if !waits_at(waits, reader) {
        return false;
    }
    match pipes.head(reader) {
        Some(Msg::Read { conds, .. }) => any_holds(conds.as_slice(), class, write, changes),
        _ => false,
    }
}

/// Whether a WRITE of the class is held back. The READ of the class that the hint names is asked
/// first.
pub fn is_held(
    pipes: &Pipes,
    waits: &[bool],
    hints: &mut Hints,
    class: ClassNo,
    write: Ts,
    changes: &[Change],
) -> bool
    ensures { result ≡ is_held_in pipes.now.value waits.now class.0 write.0 changes.now }
{
    if class.0 == 0 {
        return false;
    }
    let last = ClassNo(hints.at(class));
    if holds_still(pipes, waits, last, class, write, changes) {
        return true;
    }
    match holder(pipes, waits, class, write, changes) {
        None => false,
        Some(reader) => {
            hints.set(class, reader.0);
            true
        }
    }
}

/// Whether it is the READ of this class that holds back a WRITE of another.
fn holds_still(
    pipes: &Pipes,
    waits: &[bool],
    reader: ClassNo,
    class: ClassNo,
    write: Ts,
    changes: &[Change],
) -> bool
    ensures { IsTrue result
        → list_any (holds_in pipes.now.value waits.now class.0 write.0 changes.now)
        (range_with_len 0 (length pipes.now.value)) ≡ true }
{
    if reader.0 >= pipes.count() {
        return false;
    }
    reader_holds(pipes, waits, reader, class, write, changes)
}

/// For the WRITE at the head of the pipe of a class, the classes whose READ waits and holds it back.
pub fn holders(
    alloc: Global,
    pipes: &Pipes,
    waits: &[bool],
    class: ClassNo,
) -> Result<Option<ClassNos>, NoMemory>
    ensures { IfOk result (λ classes. classes ≡ holders_in pipes.now.value waits.now class.0) }
{
    match pipes.head(class) {
        Some(Msg::Write { ts, changes, .. }) => {
            let changes = changes.as_slice();
            let readers = all_holders(alloc, pipes, waits, class, *ts, changes)?;
            Ok(Some(ClassNos::from_vec(readers)))
        }
        _ => Ok(None),
    }
}

/// All classes whose READ waits and holds back a WRITE of another.
fn all_holders(
    alloc: Global,
    pipes: &Pipes,
    waits: &[bool],
    class: ClassNo,
    write: Ts,
    changes: &[Change],
) -> Result<Vec<ClassNo>, NoMemory>
    ensures { IfOk result (λ classes. classes.items
        ≡ filter_map (holder_at pipes.now.value waits.now class.0 write.0 changes.now)
        (range_with_len 0 (length pipes.now.value))) }
{
    Ok(
        (0..pipes.count())
            .filter_map(|reader| holder_at(pipes, waits, class, write, changes, reader))
            .collect(alloc)?,
    )
}

/// The class of a number, where its READ waits and holds back a WRITE of another.
fn holder_at(
    pipes: &Pipes,
    waits: &[bool],
    class: ClassNo,
    write: Ts,
    changes: &[Change],
    reader: u32,
) -> Option<ClassNo>
    ensures { result ≡ holder_at pipes.now.value waits.now class.0 write.0 changes.now reader }
{
    if reader_holds(pipes, waits, ClassNo(reader), class, write, changes) {
        Some(ClassNo(reader))
    } else {
        None
    }
}

/// The first class whose READ waits and holds back a WRITE of another.
fn holder(
    pipes: &Pipes,
    waits: &[bool],
    class: ClassNo,
    write: Ts,
    changes: &[Change],
) -> Option<ClassNo>
    ensures { is_some result
        ≡ list_any (holds_in pipes.now.value waits.now class.0 write.0 changes.now)
        (range_with_len 0 (length pipes.now.value)) }
{
    for reader in 0..pipes.count() {
        if reader_holds(pipes, waits, ClassNo(reader), class, write, changes) {
            return Some(ClassNo(reader));
        }
    }
    None
}
