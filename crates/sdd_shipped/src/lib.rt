//! Rows that were shipped for the uses of a transaction: when they are enough to compute what it does
//! to a database, and why it then finds in them the same.
//!
//! The one contract to the layer above is a definition, `Serves` in `specs/Serves.antt`, with the
//! lemmas on it in `proofs/Serving.antt`.
#![tactic(auto)]
