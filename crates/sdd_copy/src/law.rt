//! What the kept items tell, and that no order of changes matters.
ghost use Rattle.std.specs.Prelude.{◌≡◌, ℕ};
ghost use Rattle.sdd_copy.specs.Contents.{Dated, of_fragment, contents};
ghost use Rattle.sdd_items.specs.Items.{items_of, entries_in};
ghost use Rattle.sdd_copy.specs.Copies.{Held, Represent};
ghost use Rattle.sdd_copy.specs.Sets.{DatesDiffer, AreSame};

/// The rows of what the write rule leaves of the changes of a fragment are its contents.
pub fn law_contents()
    ensures { (f : ℕ) (xs : Dated) → entries_in (items_of (of_fragment f xs)) ≡ contents f xs }
{}

/// The contents are a function of the set of changes: neither their order nor how often one comes
/// matters, where two different changes of one item have different dates.
pub fn law_order()
    ensures { (f : ℕ) (xs ys : Dated) → DatesDiffer xs → AreSame xs ys
        → contents f xs ≡ contents f ys }
{}

/// Copies that represent changes represent the same changes in whatever order.
pub fn law_copies_order()
    ensures { (copies : Held) (xs ys : Dated) → DatesDiffer xs → AreSame xs ys
        → Represent copies xs → Represent copies ys }
{}
