// The reply of a change.
ghost use Rattle.std.specs.Prelude.{◌≡◌, IfOk};
ghost use Rattle.path_walks.specs.Replies.{IsChangeReply, replied};

use block_id::Fail;
use fs_model::Reply;

/// The reply of a change that was made, or why it wasn't.
pub fn done(made: Result<(), Fail>) -> Result<Reply, Fail>
    ensures is { result ≡ replied made }
    ensures variant { IfOk result IsChangeReply }
{
    match made {
        Ok(()) => Ok(Reply::Done),
        Err(fail) => Err(fail),
    }
}
