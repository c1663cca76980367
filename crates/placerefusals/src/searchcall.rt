// Search, and checkpoint lookup.
ghost use Rattle.refusals.specs.Refusals.{AsFound};

use arguments::Reply;
use boundary::searchcall::{sigatuda_checkpoint_at, sigatuda_search};

// Search: refused, it leaves the place of the answer as found.
pub fn search(commits: &[u8], index: &[u8], snapshot: &[u8], page: u32, out: &mut [u8]) -> Reply
    ensures { AsFound result out.old out.new }
{
    sigatuda_search(commits, index, snapshot, page, out)
}

// Checkpoint lookup: refused, it leaves the place of the answer as found.
pub fn checkpoint_at(checkpoints: &[u8], log: &[u8; 16], lsn: u64, checkpoint: &mut u64) -> Reply
    ensures { AsFound result checkpoint.old checkpoint.new }
{
    sigatuda_checkpoint_at(checkpoints, log, lsn, checkpoint)
}
