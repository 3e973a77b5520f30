use crate::value::Val;

/// What an event did.
#[derive(Clone, Copy)]
pub enum Note {
    /// The first site told the second its value.
    Tell(u32, u32, Val),
    /// The site made the write of this number, from 1 on.
    Write(u32, u32),
    /// The site ended, with this value.
    Finish(u32, Val),
    /// Nothing was to be done.
    Nothing,
    /// A message arrived at a site that has stopped.
    Dropped,
    /// The first site learnt that the second has stopped.
    Gone(u32, u32),
    /// The first site heard that the second took its value.
    Ok(u32, u32),
    /// The site had taken the value of a higher site, and didn't take this one.
    Ignored(u32),
    /// The site `at` took the value of the site `from`.
    Value { at: u32, from: u32, val: Val },
    /// The site stopped.
    Stop(u32),
}
