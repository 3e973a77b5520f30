//! What a running system requires of what is next on the lawful log.
//!
//! The one contract to the layer above is a definition, `Obligations`: what the modules require of
//! messages, transactions, ticks and further class lists holds of what is next on each lawful log,
//! and what is put goes along links. The running system takes it as a premise (`IsGood`); that it
//! holds is a theorem of the theory, which stands beside the running system and not below it.
#![tactic(auto)]
