// Tags, deleted and replaced.
ghost use Rattle.refusals.specs.Refusals.{AsFound};

use arguments::Reply;
use boundary::tagcall::{sigatuda_tag_delete, sigatuda_tag_replace};

// Tag delete: refused, it leaves the tags as found.
pub fn tag_delete(tags: &mut [u8], name: &[u8]) -> Reply
    ensures { AsFound result tags.old tags.new }
{
    sigatuda_tag_delete(tags, name)
}

// Tag replacement: refused, it leaves the tags and the place of the answer as found.
pub fn tag_replace(tags: &mut [u8], name: &[u8], vid: &[u8; 16], earlier: &mut [u8; 16]) -> Reply
    ensures as_found { AsFound result tags.old tags.new }
    ensures as_found_2 { AsFound result earlier.old earlier.new }
{
    sigatuda_tag_replace(tags, name, vid, earlier)
}
