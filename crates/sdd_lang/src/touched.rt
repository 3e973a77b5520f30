//! The fragments that a transaction touches.
ghost use Rattle.std.specs.Prelude.{◌≡◌, ◌≤◌, [], ◌∷◌, All, length, filter};
ghost use Rattle.std.specs.Ordering.{nat_cmp};
ghost use Rattle.std.specs.BTreeSet.{insert_key};
ghost use Rattle.sdd_catalog.specs.Catalogue.{Catalogue as OfCatalogue, fragment_of, numbers_to};
ghost use Rattle.sdd_lang.specs.Classes.{fragments_in, read_set, write_set, written_by};
ghost use Rattle.sdd_lang.specs.Database.{key_in};
ghost use Rattle.sdd_lang.specs.Fits.{FitsStatement, FitsTxn, IsRelation};
ghost use Rattle.sdd_lang.specs.FragSets.{members, put_all};
ghost use Rattle.sdd_lang.specs.Uses.{meets_keys, part_uses, statement_uses};

use crate::condition::Condition;
use crate::frag_set::FragSet;
use crate::keys::{Keys, keys_of};
use crate::statement::Stmt;
use crate::transaction::Txn;
use crate::tuple::key_of;
use crate::usage::meets_keys;
use sdd_base::{FragNo, RelNo, Row};
use sdd_catalog::Catalogue;

/// The fragments that a transaction reads, and those that it may change.
#[derive(Drop)]
pub(crate) struct Touched {
    pub(crate) reads: FragSet,
    pub(crate) writes: FragSet,
}

impl Touched {
    pub(crate) fn none() -> Self
        ensures reads { (catalogue : OfCatalogue) → members catalogue result.reads ≡ [] }
        ensures writes { (catalogue : OfCatalogue) → members catalogue result.writes ≡ [] }
    {
        Touched {
            reads: FragSet::new(),
            writes: FragSet::new(),
        }
    }

    /// Adds those of a transaction, where none are there yet.
    ///
    /// Costs, for each use, time in the conditions of its statement and the fragments of the
    /// catalogue. Takes no memory.
    pub(crate) fn add_all(&mut self, catalogue: &Catalogue, txn: &Txn)
        requires fits { FitsTxn catalogue.now txn.now }
        requires no_reads { members catalogue.now self.old.reads ≡ [] }
        requires no_writes { members catalogue.now self.old.writes ≡ [] }
        ensures reads { members catalogue.now self.new.reads ≡ read_set catalogue.now txn.now }
        ensures writes { members catalogue.now self.new.writes ≡ write_set catalogue.now txn.now }
    {
        for statement in txn.statements.as_slice() {
            self.add(catalogue, statement);
        }
    }

    /// Adds those of one more statement.
    fn add(&mut self, catalogue: &Catalogue, statement: &Stmt)
        requires { FitsStatement catalogue.now statement.now }
        ensures reads { members catalogue.now self.new.reads
            ≡ put_all (members catalogue.now self.old.reads) (fragments_in (statement_uses catalogue.now 0 statement.now)) }
        ensures writes { members catalogue.now self.new.writes
            ≡ put_all (members catalogue.now self.old.writes) (written_by catalogue.now statement.now) }
    {
        match statement {
            Stmt::Put { rel, row } => add_put(catalogue, *rel, row, &mut self.writes),
            Stmt::Query {
                out: _,
                rels,
                conds,
            } => {
                add_parts(
                    catalogue,
                    rels.as_slice(),
                    conds.as_slice(),
                    &mut self.reads,
                )
            }
            Stmt::Update {
                rel,
                sets: _,
                conds,
            } => { self.add_change(catalogue, *rel, conds.as_slice()) }
            Stmt::Delete { rel, conds } => self.add_change(catalogue, *rel, conds.as_slice()),
        }
    }

    /// Adds those of the use of an update or a delete.
    fn add_change(&mut self, catalogue: &Catalogue, rel: RelNo, conds: &[Condition])
        requires { IsRelation catalogue.now rel.0 }
        ensures reads { members catalogue.now self.new.reads
            ≡ put_all (members catalogue.now self.old.reads) (fragments_in (part_uses catalogue.now 0 conds.now 1 (rel ∷ []))) }
        ensures writes { members catalogue.now self.new.writes
            ≡ put_all (members catalogue.now self.old.writes) (fragments_in (part_uses catalogue.now 0 conds.now 1 (rel ∷ []))) }
    {
        let keys = keys_of(catalogue.relation(rel).key, 1, conds);
        self.add_changed(catalogue, rel, &keys);
    }

    /// Adds the fragments of the relation that hold one of the keys, to both.
    fn add_changed(&mut self, catalogue: &Catalogue, rel: RelNo, keys: &Keys)
        requires { IsRelation catalogue.now rel.0 }
        ensures reads { members catalogue.now self.new.reads
            ≡ put_all (members catalogue.now self.old.reads) (filter (meets_keys catalogue.now rel.0 keys.now) (numbers_to (length catalogue.now.fragments))) }
        ensures writes { members catalogue.now self.new.writes
            ≡ put_all (members catalogue.now self.old.writes) (filter (meets_keys catalogue.now rel.0 keys.now) (numbers_to (length catalogue.now.fragments))) }
    {
        catalogue.law_is_sound();
        for number in 1..catalogue.fragments() + 1 {
            if meets_keys(catalogue, rel, keys, FragNo(number)) {
                self.add_both(catalogue, FragNo(number));
            }
        }
    }

    fn add_both(&mut self, catalogue: &Catalogue, frag: FragNo)
        requires from { 1 ≤ frag.0 }
        requires to { frag.0 ≤ length catalogue.now.fragments }
        ensures reads { members catalogue.now self.new.reads ≡ insert_key nat_cmp (members catalogue.now self.old.reads) frag.0 }
        ensures writes { members catalogue.now self.new.writes ≡ insert_key nat_cmp (members catalogue.now self.old.writes) frag.0 }
    {
        self.reads.add(catalogue, frag);
        self.writes.add(catalogue, frag);
    }
}

/// Adds the fragment that holds the row's key.
fn add_put(catalogue: &Catalogue, rel: RelNo, row: &Row, set: &mut FragSet)
    requires { IsRelation catalogue.now rel.0 }
    ensures { members catalogue.now set.new
        ≡ put_all (members catalogue.now set.old) (fragment_of catalogue.now rel.0 (key_in catalogue.now rel.0 row.now) ∷ []) }
{
    let key = key_of(catalogue, rel, row);
    set.add(catalogue, catalogue.fragment_of(rel, key));
}

/// Adds the fragments of each part of a statement.
fn add_parts(catalogue: &Catalogue, rels: &[RelNo], conds: &[Condition], set: &mut FragSet)
    requires there { All (λ rel. IsRelation catalogue.now rel.0) rels.now }
    requires parts { length rels.now ≤ 6 }
    ensures { members catalogue.now set.new
        ≡ put_all (members catalogue.now set.old) (fragments_in (part_uses catalogue.now 0 conds.now 1 rels.now)) }
{
    let mut part = 1;
    for rel in rels {
        let keys = keys_of(catalogue.relation(*rel).key, part, conds);
        add_use(catalogue, *rel, &keys, set);
        part += 1;
    }
}

/// Adds the fragments of the relation that hold one of the keys.
fn add_use(catalogue: &Catalogue, rel: RelNo, keys: &Keys, set: &mut FragSet)
    requires { IsRelation catalogue.now rel.0 }
    ensures { members catalogue.now set.new
        ≡ put_all (members catalogue.now set.old) (filter (meets_keys catalogue.now rel.0 keys.now) (numbers_to (length catalogue.now.fragments))) }
{
    catalogue.law_is_sound();
    for number in 1..catalogue.fragments() + 1 {
        if meets_keys(catalogue, rel, keys, FragNo(number)) {
            set.add(catalogue, FragNo(number));
        }
    }
}
