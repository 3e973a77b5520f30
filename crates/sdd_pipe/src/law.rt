//! What is kept of a pipe answers all that conditions ask of it.
ghost use Rattle.std.specs.Prelude.{◌≡◌, ℕ, List};
ghost use Rattle.sdd_base.specs.declared.number.FragNo.{FragNo};
ghost use Rattle.sdd_wire.specs.declared.msg.Msg.{Msg};
ghost use Rattle.sdd_pipe.specs.Pipe.{Pipe, empty_pipe, put, head_processed, passed, last_write};
ghost use Rattle.sdd_pipe.specs.Digest.{Digest, empty_digest, put_digest, take_digest, has_passed, last_in, IsDigest};

/// A class has passed a time where its first unprocessed message has that time or a later one, or
/// where there is none and some processed message had.
pub fn law_passed()
    ensures { (digest : Digest) (pipe : Pipe) (t : ℕ) → IsDigest digest pipe
        → has_passed digest t ≡ passed pipe t }
{}

/// The last write of some fragments is the greatest timestamp of all processed WRITEs that change
/// one of them.
pub fn law_last_write()
    ensures { (digest : Digest) (pipe : Pipe) (frags : List FragNo) → IsDigest digest pipe
        → last_in frags digest ≡ last_write frags pipe }
{}

/// A pipe without messages has the empty digest.
pub fn law_empty()
    ensures { IsDigest empty_digest empty_pipe }
{}

/// The digest follows a message that is put in the pipe.
pub fn law_put()
    ensures { (msg : Msg) (digest : Digest) (pipe : Pipe) → IsDigest digest pipe
        → IsDigest (put_digest msg digest) (put msg pipe) }
{}

/// The digest follows the head that is processed.
pub fn law_take()
    ensures { (digest : Digest) (pipe : Pipe) → IsDigest digest pipe
        → IsDigest (take_digest digest) (head_processed pipe) }
{}
