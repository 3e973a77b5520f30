ghost use Rattle.std.specs.Prelude.{ℕ, ◌≡◌, ◌≤◌, List, Some, map, slice_get, true};
ghost use Rattle.sdd_module.specs.All.{ClassNo, Cond, Ts};
ghost use Rattle.sdd_rules.specs.dm.Due.{judge, spoils};
ghost use Rattle.sdd_rules.specs.dm.Fits.{Ascend};
ghost use Rattle.sdd_dm.specs.Ranks.{IsLowest};
ghost use Rattle.sdd_rules.specs.declared.step.Step.TheVariants.{Refuses};
ghost use Rattle.sdd_rules.specs.dm.Views.{Home, View};

/// Of all that is due at a data module, by whatever pipe or message, what comes next has the
/// lowest rank.
pub fn law_lowest_rank_is_next()
    ensures { (home : Home) (view : View) → IsLowest home view }
{}

/// Where the conditions of a READ ascend by class, as those of each READ that fits do, a Reject names
/// the lowest class whose condition spoils it.
pub fn law_lowest_class_is_named()
    ensures { (view : View) (conds : List Cond) (by : ClassNo) (write : Ts) (place : ℕ) (spoiler : Cond)
        → Ascend (map (λ d. d.class.0) conds) → judge view conds ≡ Refuses by write
        → slice_get conds place ≡ Some spoiler → spoils view spoiler ≡ true
        → by.0 ≤ spoiler.class.0 }
{}
