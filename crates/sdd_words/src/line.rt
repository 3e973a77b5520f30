//! Lines of a text.
ghost use Rattle.std.specs.Prelude.{◌≡◌, [], MatchOption};
ghost use Rattle.sdd_words.specs.Lines.{cut_lines, Cuts};

/// The first line, and what stands after its newline, or None exactly where there is no newline.
/// Costs time linear in the line. Takes no memory.
pub fn next_line(bytes: &[u8]) -> Option<(&[u8], &[u8])>
    ensures { MatchOption result (cut_lines bytes.now ≡ ([], bytes.now)) (λ x. Cuts bytes.now x.0.now x.1.now) }
{
    'bytes: for (i, byte) in bytes.iter().enumerate() {
        if *byte == b'\n' {
            let (line, _) = bytes.split_at(i);
            let (_, rest) = bytes.split_at(i + 1);
            return Some((line, rest));
        }
    }
    None
}
