//! Numbers of any size, by their spelling.
ghost use Rattle.std.specs.Prelude.{◌≡◌};
ghost use Rattle.std.specs.List.{list_all};
ghost use Rattle.sdd_base.specs.Name.{is_digit};
ghost use Rattle.sdd_words.specs.Whole.{whole_digits, is_nonzero, is_whole};

fn is_digit(byte: u8) -> bool
    ensures { result ≡ is_digit byte }
{
    48 <= byte && byte <= 57
}

fn all_digits(bytes: &[u8]) -> bool
    ensures { result ≡ list_all is_digit bytes.now }
{
    bytes.iter().all(|byte| is_digit(*byte))
}

/// Whether the bytes spell a whole number without a sign, of any size. Takes no memory.
pub fn are_whole_digits(bytes: &[u8]) -> bool
    ensures { result ≡ whole_digits bytes.now }
{
    match bytes {
        [] => false,
        [first, rest @ ..] => {
            if *first == b'0' {
                rest.is_empty()
            } else {
                all_digits(bytes)
            }
        }
    }
}

fn begins_nonzero(bytes: &[u8]) -> bool
    ensures { result ≡ is_nonzero bytes.now }
{
    match bytes {
        [] => false,
        [first, ..] => *first != b'0',
    }
}

/// Whether the bytes spell a whole number of any size. Takes no memory.
pub fn is_whole_number(bytes: &[u8]) -> bool
    ensures { result ≡ is_whole bytes.now }
{
    match bytes {
        [] => false,
        [first, rest @ ..] => {
            if *first == b'-' {
                are_whole_digits(rest) && begins_nonzero(rest)
            } else {
                are_whole_digits(bytes)
            }
        }
    }
}
