//! Replies of transactions by their names.
ghost use Rattle.std.specs.Prelude.{◌≡◌, ◌++◌, OnOk};
ghost use Rattle.sdd_report.specs.Replies.{reply_lines};

use sdd_lang::{NoMemory, Reply};
use sdd_words::{put, put_outcome};

/// Puts the lines of a transaction's reply after what was written before. Where memory runs out,
/// what was written is not to be used.
///
/// Costs time linear in the lines.
pub fn put_reply(out: &mut Vec<u8>, name: &[u8], reply: &Reply) -> Result<(), NoMemory>
    ensures { OnOk result (out.new.items ≡ out.old.items ++ reply_lines name.now reply.now) }
{
    put(out, b"reply ")?;
    put(out, name)?;
    put_outcome(out, reply)
}
