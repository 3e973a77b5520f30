//! Where the words of a line begin and end, byte by byte.
ghost use Rattle.std.specs.Prelude.{◌≡◌, [], is_some};
ghost use Rattle.sdd_words.specs.Scan.{last_word, mode_after, move_of, words_of};

/// Where a byte of a line stands.
#[derive(Clone, Copy)]
pub enum Mode {
    /// Before a word.
    Start,
    /// In a plain word.
    InPlain,
    /// In a text.
    InText,
    /// After a backslash in a text.
    Escape,
    /// After the closing quote.
    Closed,
}

/// What a byte does.
#[derive(Clone, Copy)]
pub enum Move {
    /// The byte only changes the mode.
    Goes(Mode),
    /// The byte is one of the word.
    Adds(Mode),
    /// The byte ends the word.
    Ends,
    /// The byte may not be there.
    Refuses,
}

fn next_move(mode: Mode, byte: u8) -> Move
    ensures { result ≡ move_of mode byte }
{
    match (mode, byte) {
        (Mode::Start, b'"') => Move::Goes(Mode::InText),
        (Mode::Start, b' ') => Move::Refuses,
        (Mode::Start, _) => Move::Adds(Mode::InPlain),
        (Mode::InPlain, b' ') => Move::Ends,
        (Mode::InPlain, _) => Move::Adds(Mode::InPlain),
        (Mode::InText, b'"') => Move::Goes(Mode::Closed),
        (Mode::InText, b'\\') => Move::Goes(Mode::Escape),
        (Mode::InText, _) => Move::Adds(Mode::InText),
        (Mode::Escape, b'"' | b'\\') => Move::Adds(Mode::InText),
        (Mode::Escape, _) => Move::Refuses,
        (Mode::Closed, b' ') => Move::Ends,
        (Mode::Closed, _) => Move::Refuses,
    }
}

/// Whether a word may end there.
fn ends_word(mode: Mode) -> bool
    ensures { result ≡ is_some (last_word mode []) }
{
    matches!(mode, Mode::InPlain | Mode::Closed)
}

/// Where the next byte stands, or None exactly where this one may not stand there.
fn mode_after(mode: Mode, byte: u8) -> Option<Mode>
    ensures { result ≡ mode_after mode byte }
{
    match next_move(mode, byte) {
        Move::Goes(to) => Some(to),
        Move::Adds(to) => Some(to),
        Move::Ends => Some(Mode::Start),
        Move::Refuses => None,
    }
}

/// Whether the bytes are words with one space between two. Takes no memory.
#[tactic(auto, using(crate::proofs::Scans::byte_more, crate::proofs::Scans::byte_refused, crate::proofs::Scans::line_ended))]
pub(crate) fn are_words(line: &[u8]) -> bool
    ensures { result ≡ is_some (words_of line.now) }
{
    let mut mode = Mode::Start;
    let mut rest = line;
    'bytes: while let [byte, more @ ..] = rest {
        match mode_after(mode, *byte) {
            Some(to) => mode = to,
            None => return false,
        }
        rest = more;
    }
    ends_word(mode)
}
