// Write a commit.
ghost use Rattle.refusals.specs.Refusals.{AsFound};

use arguments::Reply;
use boundary::writecall::sigatuda_write_commit;

// Write a commit: refused, it leaves the commits, the checkpoints and the index as found.
pub fn write_commit(
    commits: &mut [u8],
    checkpoints: &mut [u8],
    index: &mut [u8],
    commit: &[u8],
) -> Reply
    ensures as_found { AsFound result commits.old commits.new }
    ensures as_found_2 { AsFound result checkpoints.old checkpoints.new }
    ensures as_found_3 { AsFound result index.old index.new }
{
    sigatuda_write_commit(commits, checkpoints, index, commit)
}
