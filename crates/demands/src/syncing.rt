// T6, the house rule, over sync.
ghost use Rattle.demands.specs.HouseRule.{HouseRule};

use arguments::Reply;
use boundary::synccall::sigatuda_sync;

// Sync moves the desk's list in only while the tester holds nothing unsent; when both have moved it is 8, and no byte changes.
pub fn sync(volumes: &mut [u8], commits: &[u8], vid: &[u8; 16]) -> Reply
    ensures { HouseRule volumes.old commits.now vid.now result volumes.new }
{
    sigatuda_sync(volumes, commits, vid)
}
