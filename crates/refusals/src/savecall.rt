// Save.
ghost use Rattle.refusals.specs.Refusals.{AsFound};

use arguments::Reply;
use boundary::savecall::sigatuda_save;

// Save: refused, it leaves the commits, the checkpoints, the index, the present pages and the place of the answer as found.
pub fn save(
    volumes: &[u8],
    commits: &mut [u8],
    checkpoints: &mut [u8],
    index: &mut [u8],
    presence: &mut [u8],
    vid: &[u8; 16],
    snapshot: &[u8],
    count: u32,
    sid: &[u8; 16],
    pages: &[u8],
    out: &mut [u8],
) -> Reply
    ensures as_found { AsFound result commits.old commits.new }
    ensures as_found_2 { AsFound result checkpoints.old checkpoints.new }
    ensures as_found_3 { AsFound result index.old index.new }
    ensures as_found_4 { AsFound result presence.old presence.new }
    ensures as_found_5 { AsFound result out.old out.new }
{
    sigatuda_save(
        volumes,
        commits,
        checkpoints,
        index,
        presence,
        vid,
        snapshot,
        count,
        sid,
        pages,
        out,
    )
}
