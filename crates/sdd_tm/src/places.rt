/// Some of a module's classes: those from one place on, up to another. Places are counted from 0.
#[derive(Clone, Copy)]
pub(crate) struct Places {
    pub(crate) from: u32,
    pub(crate) end: u32,
}
