ghost use Rattle.std.specs.Prelude.{◌≡◌, ◌++◌, ◌∷◌, [], IfOk};
ghost use Rattle.sdd_script.specs.OpenLists.{class_so_far, classes_in, no_classes, with_class, with_read, with_write, reads_in, writes_in, takes_reads, takes_writes};

use crate::grown::Grown;
use sdd_lang::{ClassPart, Name, NoMemory, ReadPart, TmNo};
use std::alloc::Global;

/// A class that further reads or writes may be said of.
#[derive(Drop)]
pub struct OpenClass {
    pub name: Name,
    pub tm: TmNo,
    pub reads: Grown<ReadPart>,
    pub writes: Grown<Name>,
}

/// A class list that isn't ended.
#[derive(Drop)]
pub struct OpenList {
    /// The classes before the last one.
    pub classes: Grown<ClassPart>,
    /// The last class, where there is one.
    pub last: Option<OpenClass>,
}

/// The class as it stands. Takes no memory.
fn class_so_far(class: OpenClass) -> ClassPart
    ensures { result ≡ class_so_far class }
{
    ClassPart {
        name: class.name,
        tm: u32::from(class.tm.0),
        reads: class.reads.into_listed(),
        writes: class.writes.into_listed(),
    }
}

/// The list of no classes. Takes no memory.
pub fn no_classes(alloc: Global) -> OpenList
    ensures { result ≡ no_classes }
{
    OpenList {
        classes: Grown::new(alloc),
        last: None,
    }
}

/// The classes so far, the last one too.
pub fn classes_in(list: OpenList) -> Result<Grown<ClassPart>, NoMemory>
    ensures { IfOk result (λ classes. classes ≡ classes_in list) }
{
    let OpenList { mut classes, last } = list;
    match last {
        None => Ok(classes),
        Some(class) => {
            classes.push(class_so_far(class))?;
            Ok(classes)
        }
    }
}

/// The list with a further class, of which nothing is said yet.
pub fn with_class(alloc: Global, list: OpenList, name: Name, tm: TmNo) -> Result<OpenList, NoMemory>
    ensures { IfOk result (λ new. new ≡ with_class list name tm) }
{
    Ok(OpenList {
        classes: classes_in(list)?,
        last: Some(OpenClass {
            name,
            tm,
            reads: Grown::new(alloc),
            writes: Grown::new(alloc),
        }),
    })
}

fn class_with_read(class: OpenClass, read: ReadPart) -> Result<OpenClass, NoMemory>
    ensures { IfOk result (λ new. new ≡ record class { reads = class.reads ++ read ∷ [] }) }
{
    let OpenClass {
        name,
        tm,
        mut reads,
        writes,
    } = class;
    reads.push(read)?;
    Ok(OpenClass {
        name,
        tm,
        reads,
        writes,
    })
}

fn class_with_write(class: OpenClass, fragment: Name) -> Result<OpenClass, NoMemory>
    ensures { IfOk result (λ new. new ≡ record class { writes = class.writes ++ fragment ∷ [] }) }
{
    let OpenClass {
        name,
        tm,
        reads,
        mut writes,
    } = class;
    writes.push(fragment)?;
    Ok(OpenClass {
        name,
        tm,
        reads,
        writes,
    })
}

/// The list, whose last class has a further read.
pub fn with_read(list: OpenList, read: ReadPart) -> Result<OpenList, NoMemory>
    ensures { IfOk result (λ new. new ≡ with_read list read) }
{
    let OpenList { classes, last } = list;
    let last = match last {
        Some(class) => Some(class_with_read(class, read)?),
        None => None,
    };
    Ok(OpenList { classes, last })
}

/// The list, whose last class has a further write.
pub fn with_write(list: OpenList, fragment: Name) -> Result<OpenList, NoMemory>
    ensures { IfOk result (λ new. new ≡ with_write list fragment) }
{
    let OpenList { classes, last } = list;
    let last = match last {
        Some(class) => Some(class_with_write(class, fragment)?),
        None => None,
    };
    Ok(OpenList { classes, last })
}

/// The reads of the last class, none where there is none. Takes no memory.
pub fn reads_in(list: &OpenList) -> &[ReadPart]
    ensures { result.now ≡ reads_in list.now }
{
    match &list.last {
        Some(class) => class.reads.as_slice(),
        None => &[],
    }
}

/// The fragments that the last class writes, none where there is none. Takes no memory.
pub fn writes_in(list: &OpenList) -> &[Name]
    ensures { result.now ≡ writes_in list.now }
{
    match &list.last {
        Some(class) => class.writes.as_slice(),
        None => &[],
    }
}

/// Whether a read of the last class may stand next. Takes no memory.
pub fn takes_reads(list: &OpenList) -> bool
    ensures { result ≡ takes_reads list.now }
{
    match &list.last {
        Some(class) => class.writes.len() == 0,
        None => false,
    }
}

/// Whether a write of the last class may stand next. Takes no memory.
pub fn takes_writes(list: &OpenList) -> bool
    ensures { result ≡ takes_writes list.now }
{
    list.last.is_some()
}
