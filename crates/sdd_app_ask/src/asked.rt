//! What the words ask.
ghost use Rattle.std.specs.Prelude.{◌≡◌, map, string_bytes, IfNone, IfSome};
ghost use Rattle.sdd_app_ask.specs.Forms.{IsNoForm, form_of, words_of};

/// What may be asked of a catalogue.
#[derive(Clone, Copy)]
pub enum Question {
    /// Whether snapshot isolation is enough for its classes.
    Robust,
    /// Which modules its classes need.
    Needs,
}

/// A question, with the names of the files that it is about.
#[derive(Clone, Copy)]
pub enum Asked<'a> {
    /// A question about a catalogue.
    OfCatalogue(Question, &'a str),
    /// Whether snapshot isolation is enough for the transactions of a workload.
    RobustWorkload(&'a str, &'a str),
    /// What a report, the last, promises of a workload.
    Certify(&'a str, &'a str, &'a str),
}

/// What the words ask.
pub fn asked_in<'a>(words: &'a [String]) -> Option<Asked<'a>>
    ensures found { IfSome result (λ asked. map string_bytes words.now ≡ words_of (form_of asked)) }
    ensures none { IfNone result (IsNoForm (map string_bytes words.now)) }
{
    match words {
        [word, catalogue] => match word.as_str() {
            "robust" => Some(Asked::OfCatalogue(Question::Robust, catalogue.as_str())),
            "needs" => Some(Asked::OfCatalogue(Question::Needs, catalogue.as_str())),
            _ => None,
        },
        [word, catalogue, workload] => match word.as_str() {
            "robust" => Some(Asked::RobustWorkload(catalogue.as_str(), workload.as_str())),
            _ => None,
        },
        [word, catalogue, workload, report] => match word.as_str() {
            "certify" => Some(Asked::Certify(
                catalogue.as_str(),
                workload.as_str(),
                report.as_str(),
            )),
            _ => None,
        },
        _ => None,
    }
}
