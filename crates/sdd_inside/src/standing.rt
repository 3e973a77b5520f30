//! How a site stands after an event.
use sdd_script::{ClassNo, Conds, DmNo, Listed, Site, TmNo, Ts, TxnNo};

/// What an attempt is waiting for from data modules.
#[derive(Clone, Copy)]
pub enum Phase {
    /// The answers to its READs.
    Reading,
    /// The values that it asked for.
    Fetching,
    /// How many rows are left after a REDUCE.
    Reducing,
    /// The rows.
    Shipping,
}

/// An attempt that is under way.
#[derive(Drop)]
pub struct Active {
    pub class: ClassNo,
    pub txn: TxnNo,
    pub attempt: u64,
    pub time: Ts,
    pub phase: Phase,
    /// The data modules from which an answer is missing.
    pub lacks: Listed<DmNo>,
}

/// The question of a data module whether a class has passed a time, to which there is no answer yet.
#[derive(Drop)]
pub struct Question {
    pub class: ClassNo,
    pub from: Site,
    pub time: Ts,
}

/// How a transaction module stands.
#[derive(Drop)]
pub struct TmState {
    pub tm: TmNo,
    pub is_down: bool,
    /// The ticks of its clock.
    pub clock: u64,
    /// Whether an undeclared transaction keeps it from starting others.
    pub on_hold: bool,
    /// Whether it hasn't answered a HOLD yet.
    pub owes_held: bool,
    pub asks: Listed<Question>,
    pub active: Listed<Active>,
}

/// What the module for undeclared transactions is doing.
#[derive(Clone, Copy)]
pub enum Stage {
    Idle,
    /// It waits until every transaction module holds.
    Holding,
    /// Its attempt is under way.
    Reading,
    /// It waits until its changes are applied at every data module.
    Writing,
}

/// How the module for undeclared transactions stands.
#[derive(Drop)]
pub struct UState {
    /// The ticks of its clock.
    pub clock: u64,
    pub stage: Stage,
    /// The sites from which an answer is missing.
    pub lacks: Listed<Site>,
    pub active: Listed<Active>,
}

/// A pipe of a data module whose head can't be processed.
#[derive(Drop)]
pub enum Head {
    /// A READ, with its conditions that aren't met.
    Waits {
        class: ClassNo,
        conds: Conds,
    },
    /// A WRITE, with the classes whose READ waits and must not see it.
    Held {
        class: ClassNo,
        readers: Listed<ClassNo>,
    },
}

/// How a data module stands.
#[derive(Drop)]
pub struct DmState {
    pub dm: DmNo,
    pub is_down: bool,
    pub heads: Listed<Head>,
}

/// How a site stands.
#[derive(Drop)]
pub enum SiteState {
    U(UState),
    T(TmState),
    D(DmState),
}
