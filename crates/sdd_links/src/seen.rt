ghost use Rattle.std.specs.Prelude.{ℕ, ◌≡◌, IfOk};
ghost use Rattle.std.specs.BTreeMap.{get};
ghost use Rattle.sdd_links.specs.Finding.{pair_cmp, triple_cmp, apply_key, answer_key, Applied, Answered, AreMarks, sees};

use sdd_history::Rec;
use sdd_lang::{DmNo, NoMemory, TxnNo};
use std::alloc::Global;
use std::collections::BTreeMap;

/// Where transactions were applied and answered in a history.
#[derive(Drop)]
pub struct Marks {
    /// Of each transaction and module the place of its first Apply there.
    pub applied: BTreeMap<(u32, u8), usize>,
    /// Of each attempt and module the place of its last Answer there.
    pub answered: BTreeMap<(u32, u64, u8), usize>,
}

impl Marks {
    /// O(r log r) for r records.
    pub fn of(alloc: Global, history: &[(u32, Rec)]) -> Result<Marks, NoMemory>
        ensures { IfOk result (λ made. AreMarks history.now made) }
    {
        Ok(Marks {
            applied: find_applied(alloc, history)?,
            answered: find_answered(alloc, history)?,
        })
    }

    /// Whether a transaction was applied at a module before an attempt of another was answered
    /// there.
    ///
    /// O(log r) for r records.
    pub fn was_seen(&self, writer: TxnNo, dm: DmNo, reader: TxnNo, attempt: u64) -> bool
        ensures { result ≡ sees self.now writer.0 dm.0 reader.0 attempt }
    {
        let Some(applied) = self.applied.get(&(writer.0, dm.0)) else {
            return false;
        };
        let Some(answered) = self.answered.get(&(reader.0, attempt, dm.0)) else {
            return false;
        };
        *applied < *answered
    }
}

fn find_applied(
    alloc: Global,
    history: &[(u32, Rec)],
) -> Result<BTreeMap<(u32, u8), usize>, NoMemory>
    ensures { IfOk result (λ made. Applied (λ n d. get pair_cmp made (n, d)) history.now) }
{
    let mut made = BTreeMap::new(alloc);
    for (place, (_, rec)) in history.iter().enumerate() {
        if let Some(key) = apply_key(rec) {
            if !made.contains_key(&key) {
                made.insert(key, place)?;
            }
        }
    }
    Ok(made)
}

fn find_answered(
    alloc: Global,
    history: &[(u32, Rec)],
) -> Result<BTreeMap<(u32, u64, u8), usize>, NoMemory>
    ensures { IfOk result (λ made. Answered (λ n k d. get triple_cmp made (n, k, d)) history.now) }
{
    let mut made = BTreeMap::new(alloc);
    for (place, (_, rec)) in history.iter().enumerate() {
        if let Some(key) = answer_key(rec) {
            made.insert(key, place)?;
        }
    }
    Ok(made)
}

/// The transaction and the module of an Apply.
fn apply_key(rec: &Rec) -> Option<(u32, u8)>
    ensures { result ≡ apply_key rec.now }
{
    match rec {
        Rec::Apply { txn, dm, .. } => Some((txn.0, dm.0)),
        _ => None,
    }
}

/// The attempt and the module of an Answer.
fn answer_key(rec: &Rec) -> Option<(u32, u64, u8)>
    ensures { result ≡ answer_key rec.now }
{
    match rec {
        Rec::Answer { txn, attempt, dm } => Some((txn.0, *attempt, dm.0)),
        _ => None,
    }
}
