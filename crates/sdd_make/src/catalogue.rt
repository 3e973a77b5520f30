//! The catalogue of the bank.
ghost use Rattle.std.specs.Prelude.{◌≡◌, ◌++◌, ◌∷◌, [], IfOk, OnOk};
ghost use Rattle.sdd_script.specs.All.{IsName};
ghost use Rattle.sdd_make.specs.Bank.{column, account, fragment, read, class, eastpay, westpay, book, transfers, bank_parts, bank, east, west};

use crate::naming::name;
use sdd_script::{
    CatError, Catalogue, ClassPart, ClassParts, ColumnPart, ColumnParts, CopyNos, FragmentPart,
    FragmentParts, Kind, Name, Names, NoMemory, Parts, ReadPart, ReadParts, RelationPart,
    RelationParts,
};
use std::alloc::Global;

fn column(alloc: Global, spelled: &str, kind: Kind) -> Result<ColumnPart, NoMemory>
    requires { IsName spelled.now }
    ensures { IfOk result (λ c. c ≡ column spelled.now kind) }
{
    Ok(ColumnPart {
        name: name(alloc, spelled)?,
        kind,
    })
}

fn columns(alloc: Global) -> Result<ColumnParts, NoMemory>
    ensures { IfOk result (λ c. c ≡ account.columns) }
{
    let id = column(alloc, "id", Kind::Int)?;
    let owner = column(alloc, "owner", Kind::Text)?;
    let balance = column(alloc, "bal", Kind::Int)?;
    Ok(ColumnParts::from_vec(vec![in alloc; id, owner, balance]?))
}

fn account(alloc: Global) -> Result<RelationPart, NoMemory>
    ensures { IfOk result (λ r. r ≡ account) }
{
    Ok(RelationPart {
        name: name(alloc, "account")?,
        columns: columns(alloc)?,
        key: name(alloc, "id")?,
    })
}

/// A fragment of the accounts, with copies at its own module and at module 3.
fn fragment(
    alloc: Global,
    spelled: &str,
    from: i64,
    to: i64,
    dm: u32,
) -> Result<FragmentPart, NoMemory>
    requires { IsName spelled.now }
    ensures { IfOk result (λ f. f ≡ fragment spelled.now from to dm) }
{
    Ok(FragmentPart {
        name: name(alloc, spelled)?,
        relation: name(alloc, "account")?,
        from,
        to,
        copies: CopyNos::from_vec(vec![in alloc; dm, 3]?),
    })
}

fn fragments(alloc: Global) -> Result<FragmentParts, NoMemory>
    ensures { IfOk result (λ f. f ≡ bank_parts.fragments) }
{
    let east = fragment(alloc, "east", i64::MIN, 999, 1)?;
    let west = fragment(alloc, "west", 1000, i64::MAX, 2)?;
    Ok(FragmentParts::from_vec(vec![in alloc; east, west]?))
}

/// The reads of the two fragments.
fn reads(alloc: Global, east_at: u32, west_at: u32) -> Result<ReadParts, NoMemory>
    ensures { IfOk result (λ r. r ≡ read east east_at ∷ read west west_at ∷ []) }
{
    let east = ReadPart {
        fragment: name(alloc, "east")?,
        at: east_at,
    };
    let west = ReadPart {
        fragment: name(alloc, "west")?,
        at: west_at,
    };
    Ok(ReadParts::from_vec(vec![in alloc; east, west]?))
}

fn class(
    alloc: Global,
    spelled: &str,
    tm: u32,
    reads: ReadParts,
    writes: Names,
) -> Result<ClassPart, NoMemory>
    requires { IsName spelled.now }
    ensures { IfOk result (λ c. c ≡ class spelled.now tm reads writes) }
{
    Ok(ClassPart {
        name: name(alloc, spelled)?,
        tm,
        reads,
        writes,
    })
}

/// Payments within one fragment.
fn payments(alloc: Global, spelled: &str, fragment: &str, no: u32) -> Result<ClassPart, NoMemory>
    requires class { IsName spelled.now }
    requires fragment { IsName fragment.now }
    ensures { IfOk result (λ c. c ≡ class spelled.now no (read fragment.now no ∷ []) (fragment.now ∷ [])) }
{
    let read = ReadPart {
        fragment: name(alloc, fragment)?,
        at: no,
    };
    let reads = ReadParts::from_vec(vec![in alloc; read]?);
    let writes = Names::from_vec(vec![in alloc; name(alloc, fragment)?]?);
    class(alloc, spelled, no, reads, writes)
}

/// The books, which are read at one module.
fn book(alloc: Global) -> Result<ClassPart, NoMemory>
    ensures { IfOk result (λ c. c ≡ book) }
{
    let reads = reads(alloc, 3, 3)?;
    class(alloc, "book", 3, reads, Names::from_vec(Vec::new(alloc)))
}

/// Payments between the fragments.
fn transfers(alloc: Global) -> Result<ClassPart, NoMemory>
    ensures { IfOk result (λ c. c ≡ transfers) }
{
    let reads = reads(alloc, 1, 2)?;
    let east = name(alloc, "east")?;
    let west = name(alloc, "west")?;
    let writes = Names::from_vec(vec![in alloc; east, west]?);
    class(alloc, "move", 3, reads, writes)
}

fn add_classes(alloc: Global, classes: &mut Vec<ClassPart>) -> Result<(), NoMemory>
    ensures { OnOk result (classes.new.items ≡ classes.old.items ++ bank_parts.classes) }
{
    classes.push(payments(alloc, "eastpay", "east", 1)?)?;
    classes.push(payments(alloc, "westpay", "west", 2)?)?;
    classes.push(book(alloc)?)?;
    classes.push(transfers(alloc)?)?;
    Ok(())
}

fn classes(alloc: Global) -> Result<ClassParts, NoMemory>
    ensures { IfOk result (λ c. c ≡ bank_parts.classes) }
{
    let mut classes = Vec::new(alloc);
    add_classes(alloc, &mut classes)?;
    Ok(ClassParts::from_vec(classes))
}

fn parts(alloc: Global) -> Result<Parts, NoMemory>
    ensures { IfOk result (λ p. p ≡ bank_parts) }
{
    let relation = account(alloc)?;
    Ok(Parts {
        tms: 3,
        dms: 3,
        relations: RelationParts::from_vec(vec![in alloc; relation]?),
        fragments: fragments(alloc)?,
        classes: classes(alloc)?,
    })
}

/// The catalogue of the bank.
pub fn bank(alloc: Global) -> Result<Catalogue, NoMemory>
    ensures { IfOk result (λ catalogue. catalogue ≡ bank) }
{
    let parts = parts(alloc)?;
    match Catalogue::build(alloc, &parts) {
        Ok(catalogue) => Ok(catalogue),
        Err(CatError::NoMemory) => Err(NoMemory),
        Err(CatError::Fault(_)) => unreachable!(),
    }
}
