ghost use Rattle.std.specs.Prelude.{◌≡◌, ◌∷◌, Option, Bool, IsTrue, IfOk, OnErr};
ghost use Rattle.sdd_module.specs.SiteLog.{Setting, Bases, Log, Act, Handed, Does};
ghost use Rattle.sdd_wire.specs.declared.msg.Msg.{Msg};
ghost use Rattle.sdd_lang.specs.All.{Site};

use sdd_lang::{NoMemory, Site};
use sdd_wire::{Msg, Outcome};

/// A module of a site. It represents a log of what was handed to the site and what the site did,
/// newest first.
pub trait Module: Drop {
    /// Made in this setting, the module represents this log.
    ghost represents: { Self → Setting → Log → Type 0 };

    /// The act that is due next at the site, where these are the databases that its attempts read.
    ghost next: { Setting → Bases → Log → Option Act };

    /// What a message has to meet when it is handed to the site.
    ghost fits: { Setting → Bases → Log → Site → Msg → Type 0 };

    /// True until a call on the module runs out of memory.
    ghost is_live: { Self → Bool };

    fn live(&self) -> bool
        ensures { result ≡ is_live self.now };

    /// Takes a message from another site, and then makes each act that is due, one after the
    /// other, until none is: it returns what these send and record. Once out of memory it takes
    /// nothing more.
    fn take(&mut self, from: Site, msg: Msg) -> Result<Outcome, NoMemory>
        requires lives { IsTrue (is_live self.old) }
        requires represents { (setting : Setting) × (bases : Bases) × (log : Log)
            × represents self.old setting log × fits setting bases log from msg }
        ensures law { IfOk result (λ outcome. (setting : Setting) (bases : Bases) (log : Log)
            → represents self.old setting log → fits setting bases log from msg
            → Does (next setting bases) (Handed from msg ∷ log) outcome.recs outcome.out
            (represents self.new setting)) }
        ensures lives_on { IfOk result (λ _. IsTrue (is_live self.new)) }
        ensures dies { OnErr result (¬ IsTrue (is_live self.new)) };
}
