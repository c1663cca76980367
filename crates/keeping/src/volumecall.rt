// Volumes, and drop.
ghost use Rattle.rules.specs.Calls.{deleting_volume, dropping};
ghost use Rattle.layout.specs.Tables.{volumes_in, volumes_ok};
ghost use Rattle.keeping.specs.Frame.{Keeps};
ghost use Rattle.keeping.specs.Stays.{StaysFormed};
ghost use Rattle.keeping.specs.Holding.{volumes_alone};

use arguments::Reply;
use boundary::volumecall::{sigatuda_drop, sigatuda_volume_delete};

// Volume delete.
pub fn volume_delete(volumes: &mut [u8], vid: &[u8; 16]) -> Reply
    ensures keeps { Keeps (volumes_alone (volumes_in volumes.old)) (deleting_volume vid.now) (volumes_alone (volumes_in volumes.new)) }
    ensures stays_formed { StaysFormed volumes_ok volumes.old volumes.new }
{
    sigatuda_volume_delete(volumes, vid)
}

// Drop.
pub fn drop(volumes: &mut [u8], vid: &[u8; 16]) -> Reply
    ensures keeps { Keeps (volumes_alone (volumes_in volumes.old)) (dropping vid.now) (volumes_alone (volumes_in volumes.new)) }
    ensures stays_formed { StaysFormed volumes_ok volumes.old volumes.new }
{
    sigatuda_drop(volumes, vid)
}
