ghost use Rattle.std.specs.Prelude.{◌≡◌, ◌<◌, ◌≤◌, ◌^◌, ◌∷◌, ℕ, suc, true, false, List, [], length, None, Some};
ghost use Rattle.sdd_obligations.specs.invariants.All.{AtEach, Call, Event, Input, IsLawful, IsTheLog, IsWithin, Log, Mark, Msg, Round, Settle, Site, all_links, calls_of, is_link, links, marks, next, quiet, round, with_event};
ghost use Rattle.sdd_obligations.specs.logs.Marks.{BetweenRounds, ahead};
ghost use Rattle.sdd_progress.specs.Rounds.{IsOfRound, rounds};

/// A law: where the links of a network aren't quiet a round has an event, and each of its events is
/// a resend, or a delivery of the first packet, on one of these links, which go both ways.
pub fn law_rounds()
    ensures some_event { (tms dms : ℕ) (calls : List (Call Msg)) → quiet (links tms dms) calls ≡ false
        → 0 < length (round (links tms dms) calls) }
    ensures on_links { (tms dms : ℕ) (calls : List (Call Msg))
        → AtEach (IsOfRound tms dms) (round (links tms dms) calls) }
    ensures both_ways { (tms dms : ℕ) (a b : Site) → is_link tms dms a b ≡ true
        → is_link tms dms b a ≡ true }
{}

/// A law: a round begins only where none is in progress and the links aren't quiet, and has an event.
/// So a lawful log has no more rounds than marks, but one that has just begun, and a log within the
/// limits of a run has at most 2^32, fewer where it is complete.
pub fn law_rounds_end()
    ensures begins { (given : Input) (log : Log) (events : List Event)
        → next given log ≡ Some (Round events)
        → (schedule : List Event) × (ahead given.events log ≡ BetweenRounds schedule)
        × (quiet (all_links given) (calls_of log) ≡ false) × (0 < length events) }
    ensures few { (given : Input) (log : Log) → IsLawful given log → rounds log ≤ suc (marks log) }
    ensures within { (given : Input) (log : Log) → IsLawful given log → IsWithin log
        → rounds log ≤ 2 ^ 32 }
    ensures complete { (given : Input) (log : Log) → IsTheLog given log → rounds log < 2 ^ 32 }
{}

/// A law: the links are quiet where a settle has ended, that is where an event after it is next,
/// and where nothing is next and it was the last.
pub fn law_quiet_after_settle()
    ensures before_event { (given : Input) (log : Log) (event : Event) (events : List Event)
        → ahead given.events log ≡ BetweenRounds (Settle ∷ events) → next given log ≡ Some (Mark event)
        → quiet (all_links given) (calls_of log) ≡ true }
    ensures last { (given : Input) (log : Log) → IsLawful (with_event given Settle) log
        → next (with_event given Settle) log ≡ None
        → quiet (all_links given) (calls_of log) ≡ true }
{}
