ghost use Rattle.sdd_snapshot_replay.specs.Replays.{SnapshotsReplay};

use sdd_lang::Catalogue;

/// A law: where the protocol table of the catalogue has no P3, each run under snapshot isolation, with
/// one session for each class, has an order in which one database that runs the transactions one after
/// the other gives their replies, and is left with the same rows. Takes no memory.
pub fn law_snapshots_replay(catalogue: &Catalogue)
    ensures { SnapshotsReplay catalogue.now }
{
    catalogue.law_is_sound();
}
