ghost use Rattle.std.specs.Prelude.{◌≡◌};
ghost use Rattle.sdd_protocol.specs.Protocols.{same_protocol};

/// What a reader does about a writer that may be ahead of it.
#[derive(Clone, Copy)]
pub enum Protocol {
    /// Nothing: the reader takes what is there.
    P1,
    /// The reader asks up to one time for all its modules: the bound of its clock before it began.
    P2,
    /// The reader asks up to its own timestamp.
    P3,
}

impl Protocol {
    /// Whether it is the other one.
    pub(crate) fn is(self, other: Protocol) -> bool
        ensures { result ≡ same_protocol self other }
    {
        self == other
    }
}
