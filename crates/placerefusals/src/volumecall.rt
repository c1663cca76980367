// Volume read.
ghost use Rattle.refusals.specs.Refusals.{AsFound};

use arguments::Reply;
use boundary::volumecall::sigatuda_volume_read;

// Volume read: refused, it leaves the place of the answer as found.
pub fn volume_read(volumes: &[u8], vid: &[u8; 16], out: &mut [u8]) -> Reply
    ensures { AsFound result out.old out.new }
{
    sigatuda_volume_read(volumes, vid, out)
}
