// Volume delete, and drop.
ghost use Rattle.refusals.specs.Refusals.{AsFound};

use arguments::Reply;
use boundary::volumecall::{sigatuda_drop, sigatuda_volume_delete};

// Volume delete: refused, it leaves the volumes as found.
pub fn volume_delete(volumes: &mut [u8], vid: &[u8; 16]) -> Reply
    ensures { AsFound result volumes.old volumes.new }
{
    sigatuda_volume_delete(volumes, vid)
}

// Drop: refused, it leaves the volumes as found.
pub fn drop(volumes: &mut [u8], vid: &[u8; 16]) -> Reply
    ensures { AsFound result volumes.old volumes.new }
{
    sigatuda_drop(volumes, vid)
}
