// The snapshot of a volume.
ghost use Rattle.refusals.specs.Refusals.{AsFound};

use arguments::Reply;
use boundary::viewcall::sigatuda_snapshot;

// The snapshot of a volume: refused, it leaves the place of the answer as found.
pub fn snapshot(volumes: &[u8], commits: &[u8], vid: &[u8; 16], out: &mut [u8]) -> Reply
    ensures { AsFound result out.old out.new }
{
    sigatuda_snapshot(volumes, commits, vid, out)
}
