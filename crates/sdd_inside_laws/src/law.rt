ghost use Rattle.std.specs.Prelude.{ℕ, ◌≡◌, List};
ghost use Rattle.sdd_app_inside.specs.watch.obligations.All.{Catalogue, Input, IsGood, IsSoundCatalogue, Log, Txn};
ghost use Rattle.sdd_inside.specs.Lines.{line};
ghost use Rattle.sdd_inside.specs.declared.delta.Delta.{Delta};
ghost use Rattle.sdd_inside_laws.specs.Reader.{Known, known, read};
ghost use Rattle.sdd_inside_laws.specs.TextReader.{AreOfCatalogue, HaveOwnNames, by_names, read_told};
ghost use Rattle.sdd_inside_laws.specs.WholeRun.{IsReadBack, IsReadFromBytes};
ghost use Rattle.sdd_inside_read.specs.LineReader.{read_line};
ghost use Rattle.sdd_inside_read.specs.Small.{HasSmallNumbers};
ghost use Rattle.sdd_app_inside.specs.watch.obligations.catalog.Naming.{AreNamed};
ghost use Rattle.sdd_app_inside.specs.Text.{IsInsideOf};
ghost use Rattle.sdd_app_inside.specs.watch.Text.{change};
ghost use Rattle.sdd_app_inside.specs.watch.moments.Changes.{IsBetween};
ghost use Rattle.sdd_app_inside.specs.run.Runs.{input};
ghost use Rattle.sdd_app_inside.specs.run.script.Valid.{IsValid};
ghost use Rattle.sdd_app_inside.specs.run.script.declared.workload.Workload.{Workload};

/// A law: what a reader knew before an event and the line of the event give what there is after it. Of each link
/// the flight, which is the old one without the packet that the event took, with what was put behind it; the
/// messages that were put on the link, each of which is told in full once; and how many are handed over. Of
/// each queue the transactions, which are the old ones with those that came behind them, without so many from
/// the front. Of each pipe the messages that wait in it, likewise, and the time that its class has passed.
pub fn law_read_back()
    ensures { (given : Input) (old new : Log) → IsGood given → IsBetween given old new
        → read (change given old new) (known given old) ≡ known given new }
{}

/// A law: a reader of the text of a run begins with nothing on the links and nothing in queues and pipes, and
/// reads the lines one after the other. After each he has what there is when its event is over, and after the
/// last what there is at the end of the run.
pub fn law_read_run()
    ensures { (catalogue : Catalogue) (work : Workload) (text : List ℕ) → IsSoundCatalogue catalogue
        → IsValid catalogue work → (inside : IsInsideOf catalogue work text)
        → IsReadBack (input inside.of_run) inside.of_run.log text }
{}

/// A law: a reader of the bytes of a line, who knows classes and transactions by their names and messages by what
/// the text tells of them, has after it what a reader of the change has. Classes have names of their own, and the
/// numbers that are read have 64 bits at most.
pub fn law_read_bytes()
    ensures { (catalogue : Catalogue) (txns : List Txn) (change : Delta) (before : Known) → HaveOwnNames catalogue
        → AreOfCatalogue catalogue change before → HasSmallNumbers change
        → read_told (read_line (line catalogue txns change)) (by_names catalogue txns before)
        ≡ by_names catalogue txns (read change before) }
{}

/// A law: the same of the bytes of the text. A reader cuts it into lines and these into their members, knows
/// classes and transactions by their names and messages by what the text tells of them, and begins with
/// nothing; after each line he has what there is, by names. The numbers in the lines of a run have 64 bits at
/// most, since it stays within the limits of events and of messages on a link.
pub fn law_read_text()
    ensures { (catalogue : Catalogue) (work : Workload) (text : List ℕ) → IsSoundCatalogue catalogue
        → AreNamed catalogue → IsValid catalogue work → (inside : IsInsideOf catalogue work text)
        → IsReadFromBytes (input inside.of_run) inside.of_run.log text }
{}
