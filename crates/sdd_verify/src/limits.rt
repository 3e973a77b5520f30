/// The most bytes of a report that is judged: 64 MiB.
pub const MAX_REPORT_BYTES: usize = 67_108_864;
