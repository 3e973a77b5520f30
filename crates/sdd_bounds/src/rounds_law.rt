ghost use Rattle.std.specs.Prelude.{◌≡◌, ◌≤◌, ◌*◌, ◌+◌, ◌++◌, ◌∷◌, ℕ, suc, true, List};
ghost use Rattle.sdd_progress.specs.obligations.All.{Call, Event, Input, IsLawful, Log, Msg, Settle, links, quiet};
ghost use Rattle.sdd_progress.specs.obligations.logs.Marks.{BetweenRounds, ahead, events_ahead};
ghost use Rattle.sdd_progress.specs.Rounds.{rounds};
ghost use Rattle.sdd_bounds.specs.RoundsOnLinks.{after_rounds};
ghost use Rattle.sdd_bounds.specs.SettleRounds.{AreBetweenEvents, HasFewRounds, messages_put};

/// A law: four rounds in a row in which nothing is put leave the links of a network quiet, whatever
/// was put, lost or repeated on them before. Three don't always.
pub fn law_four_rounds()
    ensures { (tms dms : ℕ) (calls : List (Call Msg))
        → quiet (links tms dms) (after_rounds 4 (links tms dms) calls) ≡ true }
{}

/// A law: a settle has at most four rounds, and four more for each message that is put within it. The
/// first clause says so of each part of it, from any moment to any later one; with no messages put
/// there are at most four. It assumes nothing of limits: a settle that doesn't end puts messages
/// without end. How many messages are put within a settle, no clause bounds.
pub fn law_few_rounds()
    ensures between { (given : Input) (later log : Log) → IsLawful given (later ++ log)
        → AreBetweenEvents given later log → HasFewRounds later }
    ensures in_settle { (given : Input) (events : List Event) (later log : Log) → IsLawful given (later ++ log)
        → ahead given.events log ≡ BetweenRounds (Settle ∷ events)
        → events_ahead (ahead given.events (later ++ log)) ≡ Settle ∷ events
        → rounds later ≤ 4 * (messages_put later + 1) }
{}
