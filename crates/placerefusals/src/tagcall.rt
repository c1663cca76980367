// The volume that a tag names.
ghost use Rattle.refusals.specs.Refusals.{AsFound};

use arguments::Reply;
use boundary::tagcall::sigatuda_tag_read;

// The volume that a tag names: refused, it leaves the place of the answer as found.
pub fn tag_read(tags: &[u8], name: &[u8], vid: &mut [u8; 16]) -> Reply
    ensures { AsFound result vid.old vid.new }
{
    sigatuda_tag_read(tags, name, vid)
}
