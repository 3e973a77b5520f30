ghost use Rattle.std.specs.Prelude.{◌≡◌, ◌<◌, ◌≤◌, ◌^◌, List, ℕ, map, string_bytes, IfSome, IfNone};
ghost use Rattle.std.specs.Fmt.{decimal};
ghost use Rattle.sdd_commands.specs.Command.{Form, IsForm, MakesBy, words_of, form_of};

use sdd_words::read_count;

/// What the words of the command line ask for. CAT, WORK and REPORT are names of files.
#[derive(Clone, Copy)]
pub enum Command<'a> {
    Check(&'a str),
    Graph(&'a str),
    Table(&'a str),
    Run(&'a str, &'a str),
    Plain(&'a str, &'a str),
    /// A file of transaction control.
    Control(&'a str),
    /// A seed and a number of transactions.
    Make(u32, u32),
    Verify(&'a str, &'a str, &'a str),
    Advise(&'a str),
}

/// The command that has these words.
pub fn parse_words<'a>(words: &'a [String]) -> Option<Command<'a>>
    ensures found { IfSome result (λ c. IsForm (form_of c) × (map string_bytes words.now ≡ words_of (form_of c))) }
    ensures none { IfNone result ((f : Form) → IsForm f → map string_bytes words.now ≡ words_of f → ⊥) }
{
    match words {
        [name, catalogue] => match name.as_str() {
            "check" => Some(Command::Check(catalogue.as_str())),
            "graph" => Some(Command::Graph(catalogue.as_str())),
            "table" => Some(Command::Table(catalogue.as_str())),
            "control" => Some(Command::Control(catalogue.as_str())),
            "advise" => Some(Command::Advise(catalogue.as_str())),
            _ => None,
        },
        [name, first, second] => match name.as_str() {
            "run" => Some(Command::Run(first.as_str(), second.as_str())),
            "plain" => Some(Command::Plain(first.as_str(), second.as_str())),
            "make" => make_of(first.as_str(), second.as_str()),
            _ => None,
        },
        [name, catalogue, work, report] => match name.as_str() {
            "verify" => Some(Command::Verify(catalogue.as_str(), work.as_str(), report.as_str())),
            _ => None,
        },
        _ => None,
    }
}

/// The command `make` for a seed below 2^31 and at most 2,048 transactions.
fn make_of<'a>(seed: &str, count: &str) -> Option<Command<'a>>
    ensures found { IfSome result (λ c. MakesBy seed.now count.now c) }
    ensures none { IfNone result ((s n : ℕ) → s < 2 ^ 31 → n ≤ 2048 → seed.now ≡ decimal s → count.now ≡ decimal n → ⊥) }
{
    match read_count(seed) {
        Some(seed) => match read_count(count) {
            Some(count) => {
                if seed >= 1 << 31 {
                    return None;
                }
                if count > 2048 {
                    return None;
                }
                Some(Command::Make(seed, count))
            }
            None => None,
        },
        None => None,
    }
}
