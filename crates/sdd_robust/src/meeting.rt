//! Whether accesses are of one row, and whether transactions conflict by their accesses.
ghost use Rattle.std.specs.Prelude.{◌≡◌, ◌&&◌, ◌||◌, not};
ghost use Rattle.std.specs.List.{list_any};
ghost use Rattle.sdd_robust_laws.specs.Accesses.{are_apart, are_of_one_row, changes_for, changes_with, columns_meet, conflict, is_one_key, meets, reads_from, rows_meet};
ghost use Rattle.sdd_robust.specs.Pivots.{may_miss};

use sdd_robust_laws::Access;

/// Whether it is one row.
fn is_one_row(access: &Access) -> bool
    ensures { result ≡ is_one_key access.now.least access.now.greatest }
{
    access.least <= access.greatest && access.greatest <= access.least
}

/// Whether there may be a row that both are of.
fn rows_meet(x: &Access, y: &Access) -> bool
    ensures { result ≡ rows_meet x.now y.now }
{
    x.rel == y.rel && x.least <= y.greatest && y.least <= x.greatest
}

/// Whether both have a column; 0 stands for all.
fn columns_meet(a: u32, b: u32) -> bool
    ensures { result ≡ columns_meet a b }
{
    a == 0 || b == 0 || a == b
}

/// Whether both have a column of a row.
pub(crate) fn meets(x: &Access, y: &Access) -> bool
    ensures { result ≡ meets x.now y.now }
{
    rows_meet(x, y) && columns_meet(x.column, y.column)
}

/// Whether both are of one and the same row.
fn are_of_one_row(x: &Access, y: &Access) -> bool
    ensures { result ≡ are_of_one_row x.now y.now }
{
    rows_meet(x, y) && is_one_row(x) && is_one_row(y)
}

fn is_changed_by(x: &Access, y: &Access) -> bool
    ensures { result ≡ (y.now.changes && meets x.now y.now) }
{
    y.changes && meets(x, y)
}

fn is_read_by(y: &Access, x: &Access) -> bool
    ensures { result ≡ (x.now.reads && meets x.now y.now) }
{
    x.reads && meets(x, y)
}

fn is_surely_changed_by(x: &Access, y: &Access) -> bool
    ensures { result ≡ (y.now.sure && rows_meet x.now y.now) }
{
    y.sure && rows_meet(x, y)
}

fn has_row_changed_by(x: &Access, y: &Access) -> bool
    ensures { result ≡ (y.now.changes && rows_meet x.now y.now) }
{
    y.changes && rows_meet(x, y)
}

fn one_changes_row(x: &Access, others: &[Access]) -> bool
    ensures { result ≡ list_any (λ y. y.changes && rows_meet x.now y) others.now }
{
    others.iter().any(|y| has_row_changed_by(x, y))
}

fn one_changes(x: &Access, others: &[Access]) -> bool
    ensures { result ≡ list_any (λ y. y.changes && meets x.now y) others.now }
{
    others.iter().any(|y| is_changed_by(x, y))
}

fn one_reads(y: &Access, others: &[Access]) -> bool
    ensures { result ≡ list_any (λ x. x.reads && meets x y.now) others.now }
{
    others.iter().any(|x| is_read_by(y, x))
}

fn one_surely_changes(x: &Access, others: &[Access]) -> bool
    ensures { result ≡ list_any (λ y. y.sure && rows_meet x.now y) others.now }
{
    others.iter().any(|y| is_surely_changed_by(x, y))
}

/// Whether the access may read what the transaction may change.
pub fn reads_from(x: &Access, others: &[Access]) -> bool
    ensures { result ≡ reads_from x.now others.now }
{
    x.reads && one_changes(x, others)
}

/// Whether the access may change what the transaction may read.
pub(crate) fn changes_for(y: &Access, others: &[Access]) -> bool
    ensures { result ≡ changes_for y.now others.now }
{
    y.changes && one_reads(y, others)
}

/// Whether the access may change a row that the transaction may change, be it in other columns.
fn changes_with(x: &Access, others: &[Access]) -> bool
    ensures { result ≡ changes_with x.now others.now }
{
    x.changes && one_changes_row(x, others)
}

fn conflicts(x: &Access, others: &[Access]) -> bool
    ensures { result ≡ (reads_from x.now others.now || (changes_for x.now others.now || changes_with x.now others.now)) }
{
    reads_from(x, others) || (changes_for(x, others) || changes_with(x, others))
}

/// Whether one may read or change what the other may change, or the other way round.
pub fn conflict(xs: &[Access], ys: &[Access]) -> bool
    ensures { result ≡ conflict xs.now ys.now }
{
    xs.iter().any(|x| conflicts(x, ys))
}

fn changes_for_sure(x: &Access, others: &[Access]) -> bool
    ensures { result ≡ (x.now.sure && list_any (λ y. y.sure && rows_meet x.now y) others.now) }
{
    x.sure && one_surely_changes(x, others)
}

/// Whether both change one row for sure: then no two runs of them that are at once may both commit.
pub fn are_apart(xs: &[Access], ys: &[Access]) -> bool
    ensures { result ≡ are_apart xs.now ys.now }
{
    xs.iter().any(|x| changes_for_sure(x, ys))
}

fn misses(change: &Access, other: &[Access], read: &Access) -> bool
    ensures { result ≡ (changes_for change.now other.now && not (are_of_one_row read.now change.now)) }
{
    changes_for(change, other) && !are_of_one_row(read, change)
}

/// Whether the other transaction may read what the pivot changes, where it isn't one row with what the
/// pivot reads by this access.
pub fn may_miss(other: &[Access], pivot: &[Access], read: &Access) -> bool
    ensures { result ≡ may_miss other.now pivot.now read.now }
{
    pivot.iter().any(|change| misses(change, other, read))
}
