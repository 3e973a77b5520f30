ghost use Rattle.std.specs.Prelude.{◌≡◌};
ghost use Rattle.sdd_script.specs.FirstWords.{statement_key_in, class_key_in, event_key_in, outer_keyword, inner_keyword, keyword_in, keyword_of};

use sdd_words::Token;

/// The first word of a line.
#[derive(Clone, Copy)]
pub enum Keyword {
    Row,
    Txn,
    Statement(StatementKey),
    Done,
    Class(ClassKey),
    Event(EventKey),
    End,
}

/// The first word of a statement's line.
#[derive(Clone, Copy)]
pub enum StatementKey {
    Put,
    Query,
    Update,
    Delete,
}

/// The first word of a line of a class list.
#[derive(Clone, Copy)]
pub enum ClassKey {
    List,
    Class,
    Reads,
    Writes,
}

/// The first word of an event's line.
#[derive(Clone, Copy)]
pub enum EventKey {
    Submit,
    Deliver,
    Lose,
    Repeat,
    Resend,
    Tick,
    Settle,
    Redeclare,
    Down,
    Up,
}

fn statement_key_in(bytes: &[u8]) -> Option<StatementKey>
    ensures { result ≡ statement_key_in bytes.now }
{
    if bytes == b"put".as_slice() {
        Some(StatementKey::Put)
    } else if bytes == b"query".as_slice() {
        Some(StatementKey::Query)
    } else if bytes == b"update".as_slice() {
        Some(StatementKey::Update)
    } else if bytes == b"delete".as_slice() {
        Some(StatementKey::Delete)
    } else {
        None
    }
}

fn class_key_in(bytes: &[u8]) -> Option<ClassKey>
    ensures { result ≡ class_key_in bytes.now }
{
    if bytes == b"list".as_slice() {
        Some(ClassKey::List)
    } else if bytes == b"class".as_slice() {
        Some(ClassKey::Class)
    } else if bytes == b"reads".as_slice() {
        Some(ClassKey::Reads)
    } else if bytes == b"writes".as_slice() {
        Some(ClassKey::Writes)
    } else {
        None
    }
}

fn event_key_in(bytes: &[u8]) -> Option<EventKey>
    ensures { result ≡ event_key_in bytes.now }
{
    if bytes == b"submit".as_slice() {
        Some(EventKey::Submit)
    } else if bytes == b"deliver".as_slice() {
        Some(EventKey::Deliver)
    } else if bytes == b"lose".as_slice() {
        Some(EventKey::Lose)
    } else if bytes == b"repeat".as_slice() {
        Some(EventKey::Repeat)
    } else if bytes == b"resend".as_slice() {
        Some(EventKey::Resend)
    } else if bytes == b"tick".as_slice() {
        Some(EventKey::Tick)
    } else if bytes == b"settle".as_slice() {
        Some(EventKey::Settle)
    } else if bytes == b"redeclare".as_slice() {
        Some(EventKey::Redeclare)
    } else if bytes == b"down".as_slice() {
        Some(EventKey::Down)
    } else if bytes == b"up".as_slice() {
        Some(EventKey::Up)
    } else {
        None
    }
}

fn outer_keyword(class: Option<ClassKey>, event: Option<EventKey>) -> Option<Keyword>
    ensures { result ≡ outer_keyword class event }
{
    match class {
        Some(key) => Some(Keyword::Class(key)),
        None => match event {
            Some(key) => Some(Keyword::Event(key)),
            None => None,
        },
    }
}

fn inner_keyword(statement: Option<StatementKey>, outer: Option<Keyword>) -> Option<Keyword>
    ensures { result ≡ inner_keyword statement outer }
{
    match statement {
        Some(key) => Some(Keyword::Statement(key)),
        None => outer,
    }
}

fn keyword_in(bytes: &[u8]) -> Option<Keyword>
    ensures { result ≡ keyword_in bytes.now }
{
    if bytes == b"row".as_slice() {
        Some(Keyword::Row)
    } else if bytes == b"txn".as_slice() {
        Some(Keyword::Txn)
    } else if bytes == b"done".as_slice() {
        Some(Keyword::Done)
    } else if bytes == b"end".as_slice() {
        Some(Keyword::End)
    } else {
        inner_keyword(
            statement_key_in(bytes),
            outer_keyword(class_key_in(bytes), event_key_in(bytes)),
        )
    }
}

/// The keyword that a word is, or None exactly where it is none. Takes no memory.
pub fn keyword_of(word: &Token<'_>) -> Option<Keyword>
    ensures { result ≡ keyword_of word.now }
{
    match word.plain() {
        Some(bytes) => keyword_in(bytes),
        None => None,
    }
}
