ghost use Rattle.std.specs.Prelude.{◌≡◌};
ghost use Rattle.sdd_control.specs.Keys.{key_in, key_of};

use sdd_script::Token;

/// The first word of a line.
#[derive(Clone, Copy)]
pub enum Key {
    Control,
    Step,
    Deliver,
    Stop,
    End,
}

fn key_in(bytes: &[u8]) -> Option<Key>
    ensures { result ≡ key_in bytes.now }
{
    if bytes == b"control".as_slice() {
        Some(Key::Control)
    } else if bytes == b"step".as_slice() {
        Some(Key::Step)
    } else if bytes == b"deliver".as_slice() {
        Some(Key::Deliver)
    } else if bytes == b"stop".as_slice() {
        Some(Key::Stop)
    } else if bytes == b"end".as_slice() {
        Some(Key::End)
    } else {
        None
    }
}

/// The key that a word is, or None exactly where it is none. Takes no memory.
pub fn key_of(word: &Token<'_>) -> Option<Key>
    ensures { result ≡ key_of word.now }
{
    match word.plain() {
        Some(bytes) => key_in(bytes),
        None => None,
    }
}
