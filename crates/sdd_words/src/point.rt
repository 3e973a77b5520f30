//! Points in the bytes of a word.
ghost use Rattle.std.specs.Prelude.{◌≡◌};
ghost use Rattle.std.specs.List.{position};
ghost use Rattle.sdd_words.specs.Keywords.{is_point, has_point, before_point, behind_point, has_one_point};

/// Where the first point is. Takes no memory.
pub fn point_in(bytes: &[u8]) -> Option<usize>
    ensures { result ≡ position is_point bytes.now }
{
    bytes.iter().position(|byte| *byte == b'.')
}

/// The bytes before and after the first point, all and none where there is no point. Takes no
/// memory.
pub fn parts_at_point(bytes: &[u8]) -> (&[u8], &[u8])
    ensures before { result.0.now ≡ before_point bytes.now }
    ensures behind { result.1.now ≡ behind_point bytes.now }
{
    match point_in(bytes) {
        Some(at) => {
            let (before, _) = bytes.split_at(at);
            let (_, behind) = bytes.split_at(at + 1);
            (before, behind)
        }
        None => (bytes, &[]),
    }
}

fn has_point(bytes: &[u8]) -> bool
    ensures { result ≡ has_point bytes.now }
{
    point_in(bytes).is_some()
}

/// Whether one point is there. Takes no memory.
pub(crate) fn has_one_point(bytes: &[u8]) -> bool
    ensures { result ≡ has_one_point bytes.now }
{
    let (_, behind) = parts_at_point(bytes);
    has_point(bytes) && !has_point(behind)
}
