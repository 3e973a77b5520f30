ghost use Rattle.std.specs.Prelude.{◌≤◌, ◌∷◌, ℕ};
ghost use Rattle.sdd_invariants.specs.All.{D, DmNo, Hand, Input, IsPermitted, Log, Msg, Site, home, local_of, number_of, setting_of};
ghost use Rattle.sdd_invariants.specs.catalog.Rules as catalogues;
ghost use Rattle.sdd_obligations.specs.Awaited.{IsAwaited, IsReadable, IsServable};
ghost use Rattle.sdd_obligations.specs.Stages.{IsStage, flight};
ghost use Rattle.sdd_obligations.specs.Turns.{answers, questions, turn_at, turn_with};

/// The attempts of a class and each data module speak by turns: the site that runs the class and
/// the module have the same turn of an attempt, but for one question or one answer that is put
/// and not handed over.
pub fn law_turns()
    ensures { (given : Input) (class : ℕ) (d : DmNo) (ts : ℕ) (log : Log) → IsPermitted given log
        → number_of (home given.catalogue class) ≤ 63
        → IsStage (turn_at ts class d.0 (local_of given (home given.catalogue class) log))
        (turn_with ts class (home given.catalogue class) (local_of given (D d) log))
        (questions ts class (flight given (home given.catalogue class) (D d) log))
        (answers ts class (flight given (D d) (home given.catalogue class) log)) }
{}

/// An answer of a data module that may be handed over next is one that its site awaits.
pub fn law_answers()
    ensures { (given : Input) (log : Log) (a b : Site) (n : ℕ) (msg : Msg)
        → IsPermitted given (Hand a b n msg ∷ log)
        → ((class : ℕ) → number_of (home given.catalogue class) ≤ 63)
        → IsAwaited (setting_of given b) (local_of given b log) a msg }
{}

/// A FETCH, REDUCE or SHIP that may be handed over next is for rows that its data module holds
/// for the attempt.
pub fn law_questions()
    ensures { (given : Input) (log : Log) (a : Site) (d : DmNo) (n : ℕ) (msg : Msg)
        → IsPermitted given (Hand a (D d) n msg ∷ log)
        → ((class : ℕ) → number_of (home given.catalogue class) ≤ 63)
        → IsServable (setting_of given (D d)) (local_of given (D d) log) a msg }
{}

/// A READ that may be handed over next is of a class of the catalogue, and so are its conditions;
/// the numbers of its uses differ, and its data module has copies of their fragments.
pub fn law_reads()
    ensures { (given : Input) (log : Log) (a : Site) (d : DmNo) (n : ℕ) (msg : Msg)
        → IsPermitted given (Hand a (D d) n msg ∷ log)
        → catalogues.IsSoundCatalogue given.catalogue
        → IsReadable (setting_of given (D d)) msg }
{}
