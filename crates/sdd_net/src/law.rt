ghost use Rattle.std.specs.Prelude.{◌≡◌, List, IsTrue};
ghost use Rattle.sdd_base.specs.declared.site.Site.{Site};
ghost use Rattle.sdd_net.specs.Links.{Call, link, handed, due, is_quiet_link};

/// Whatever calls are made, in whatever order: what the deliveries on a link hand on is what was put
/// on it, from the first message to the last that is delivered, in order and each once. Where the
/// link is quiet, that is all that was put on it.
pub fn law_in_order<M>()
    ensures in_order { (a b : Site) (calls : List (Call M)) → handed a b calls ≡ due (link a b calls).there }
    ensures whole { (a b : Site) (calls : List (Call M)) → IsTrue (is_quiet_link (link a b calls))
        → handed a b calls ≡ (link a b calls).there.sent }
{}
