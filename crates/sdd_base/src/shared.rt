ghost use Rattle.std.specs.Prelude.{◌≡◌, IfOk};
ghost use Rattle.std.specs.Cmp.Lexicographic.{pointwise, slice_cmp, slice_partial_cmp, lists_per, lists_equiv, lists_po, lists_total, lists_agrees, lists_ties};
ghost use Rattle.std.specs.Hash as fed;
ghost use Rattle.std.specs.Hash.{items_Alike};
ghost use Rattle.sdd_base.specs.Exactly.{lists_decide};

use crate::exact::Exact;
use crate::no_memory::NoMemory;
use crate::parcel::Parcel;
use std::cmp::Ordering;
use std::hash::{Hash, Hasher};
use std::marker::Model;
use std::rc::Rc;

/// A list of items that doesn't change any more, which contracts see as the list. Copies share one
/// place in memory, so a copy costs constant time.
///
/// Two of them are equal, ordered and hashed by their items, from the front.
#[derive(Drop)]
pub struct Shared<T> {
    items: Rc<Vec<T>>,
}

impl<T> Model for Shared<T> {
    ghost use Rattle.std.specs.Prelude.{List};

    ghost Value = { List T };

    ghost view = { λ l. l.items.value.items };
}

impl<T> Shared<T> {
    /// The items, lent. Takes no memory.
    pub fn as_slice(&self) -> &[T]
        ensures { result.now ≡ self.now }
    {
        self.items.as_slice()
    }
}

impl<T: Drop> Shared<T> {
    /// The list of these items, which are not copied.
    pub fn from_vec(items: Vec<T>) -> Result<Self, NoMemory>
        ensures { IfOk result (λ list. list ≡ items.items) }
    {
        let alloc = *items.allocator();
        Ok(Shared {
            items: Rc::new(alloc, items)?,
        })
    }
}

impl<T: Parcel> Shared<T> {
    /// Copies of the items, to make another list of them. Costs what the copies cost.
    pub fn to_vec(&self) -> Result<Vec<T>, NoMemory>
        ensures { IfOk result (λ copies. copies.items ≡ self.now) }
    {
        T::copy_all(*self.items.allocator(), self.as_slice())
    }
}

impl<T: PartialEq> PartialEq for Shared<T> {
    ghost eq = { pointwise T.eq };

    ghost laws = { lists_per T.laws };

    fn eq(&self, other: &Self) -> bool {
        self.as_slice() == other.as_slice()
    }
}

impl<T: Eq> Eq for Shared<T> {
    ghost laws = { lists_equiv T.Eq.laws };
}

impl<T: PartialOrd> PartialOrd for Shared<T> {
    ghost partial_cmp = { slice_partial_cmp T.partial_cmp };

    ghost laws = { lists_po T.PartialOrd.laws };

    fn partial_cmp(&self, other: &Self) -> Option<Ordering> {
        self.as_slice().partial_cmp(other.as_slice())
    }
}

impl<T: Ord> Ord for Shared<T> {
    ghost cmp = { slice_cmp T.cmp };

    ghost total = { lists_total T.total };

    ghost matches_partial_cmp = { lists_agrees T.matches_partial_cmp };

    ghost matches_eq = { lists_ties T.cmp T.matches_eq };

    fn cmp(&self, other: &Self) -> Ordering {
        self.as_slice().cmp(other.as_slice())
    }
}

impl<T: Hash> Hash for Shared<T> {
    ghost hash_input = { fed.slice T.hash_input };

    ghost respects_eq = { (items_Alike (record { fed = T.respects_eq })).fed };

    fn hash<H: Hasher>(&self, state: &mut H) {
        self.as_slice().hash(state);
    }
}

impl<T: Exact> Exact for Shared<T> {
    ghost exact = { lists_decide T.exact };
}

impl<T: Drop> Parcel for Shared<T> {
    fn copy(&self) -> Result<Self, NoMemory> {
        Ok(Shared {
            items: self.items.clone()?,
        })
    }
}
