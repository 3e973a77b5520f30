//! What an outage costs: which modules a class needs, itself and through the classes that it waits for.
//!
//! The one contract to the layers above is a definition, `Needs`, of the least sets of modules that an
//! attempt of a class needs, and that others need who wait for the class (`specs/Needs.antt`). That a
//! transaction whose class needs nothing that is down commits is a theorem of the theory of the log.
#![tactic(auto)]
