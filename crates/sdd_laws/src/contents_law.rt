//! Laws of copies: facts about the definitions, each carried by the contract of a function. A
//! program has no need to call them. They hold of transactions of any type `T`.
ghost use Rattle.std.specs.Prelude.{ℕ, ℤ, ◌≡◌, ◌↔◌, Bool, List, Contains, Option, Some, ◌++◌, filter, map};
ghost use Rattle.sdd_lang.specs.base.declared.change.Change as change;
ghost use Rattle.sdd_lang.specs.All.{Database, IsDatabase, Item, Row, fragment_at, fragment_of};
ghost use Rattle.sdd_copy.specs.Contents.{Dated, of_fragment, rows_left, contents};
ghost use Rattle.sdd_copy.specs.Sets.{AreSame};
ghost use Rattle.sdd_laws.specs.Committed.{Writers, first_row, all_dated, copy_of, taken};
ghost use Rattle.sdd_laws.specs.Values.{IsValue, ArePlaced, LeaveOneRow, AreWriters};

use sdd_lang::Catalogue;

/// Each item of a fragment has a value, and one alone.
pub fn law_one_value(catalogue: &Catalogue)
    ensures some { (xs : Dated) (f : ℕ) (key : ℤ) → ArePlaced catalogue.now xs
        → fragment_of catalogue.now (fragment_at catalogue.now f).rel.0 key ≡ f
        → (row : Option Row) × IsValue catalogue.now xs ((fragment_at catalogue.now f).rel.0, key) row }
    ensures one { (xs : Dated) (item : Item) (a b : Option Row) → LeaveOneRow catalogue.now xs
        → IsValue catalogue.now xs item a → IsValue catalogue.now xs item b → a ≡ b }
{}

/// A copy holds, of the items of its fragment, the values by its first rows and the changes of the
/// transactions that are applied.
pub fn law_copy_holds_values<T>(catalogue: &Catalogue)
    ensures { (first : Database) (w : Writers T) (commits : List T) (applied : T → Bool) (f : ℕ)
        → IsDatabase catalogue.now first → AreWriters catalogue.now w commits
        → (key : ℤ) (row : Row) → fragment_of catalogue.now (fragment_at catalogue.now f).rel.0 key ≡ f
        → Contains (copy_of catalogue.now first w commits applied f) (key, row)
        ↔ IsValue catalogue.now (all_dated catalogue.now first w (filter applied commits))
        ((fragment_at catalogue.now f).rel.0, key) (Some row) }
{
    catalogue.law_is_sound();
}

/// In which order, and how often, changes come to a copy makes no difference: it is what the
/// set of them leaves.
pub fn law_any_order<T>(catalogue: &Catalogue)
    ensures { (first : Database) (w : Writers T) (commits : List T) (applied : T → Bool) (f : ℕ) (xs : Dated)
        → IsDatabase catalogue.now first → AreWriters catalogue.now w commits
        → AreSame (all_dated catalogue.now first w (filter applied commits)) xs
        → contents f xs ≡ copy_of catalogue.now first w commits applied f }
{
    catalogue.law_is_sound();
}

/// A copy takes of the first rows those of its fragment, and of the committed transactions the
/// changes that count.
pub fn law_copy_takes<T>(catalogue: &Catalogue)
    ensures { (first : Database) (w : Writers T) (commits : List T) (applied : T → Bool) (f : ℕ)
        → copy_of catalogue.now first w commits applied f
        ≡ rows_left (of_fragment f (map (first_row catalogue.now) first) ++ taken w commits applied f) }
{}

/// Two copies of a fragment that began alike are equal, where of the transactions that change the
/// fragment the same are applied.
pub fn law_same_copies<T>(catalogue: &Catalogue)
    ensures { (first : Database) (w : Writers T) (commits : List T) (a b : T → Bool) (f : ℕ)
        → ((x : T) → Contains commits x → (c : change.Change) → Contains (w.changes x) c
        → c.frag.0 ≡ f → a x ≡ b x)
        → copy_of catalogue.now first w commits a f ≡ copy_of catalogue.now first w commits b f }
{}
