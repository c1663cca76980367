// Tags.
ghost use Rattle.rules.specs.Calls.{deleting_tag, replacing_tag};
ghost use Rattle.layout.specs.Tables.{tags_in, tags_ok};
ghost use Rattle.keeping.specs.Frame.{Keeps};
ghost use Rattle.keeping.specs.Stays.{StaysFormed};
ghost use Rattle.keeping.specs.Holding.{tags_alone};

use arguments::Reply;
use boundary::tagcall::{sigatuda_tag_delete, sigatuda_tag_replace};

// Tag delete.
pub fn tag_delete(tags: &mut [u8], name: &[u8]) -> Reply
    ensures keeps { Keeps (tags_alone (tags_in tags.old)) (deleting_tag name.now) (tags_alone (tags_in tags.new)) }
    ensures stays_formed { StaysFormed tags_ok tags.old tags.new }
{
    sigatuda_tag_delete(tags, name)
}

// Tag replacement.
pub fn tag_replace(tags: &mut [u8], name: &[u8], vid: [u8; 16], earlier: &mut [u8; 16]) -> Reply
    ensures keeps { Keeps (tags_alone (tags_in tags.old)) (replacing_tag name.now vid) (tags_alone (tags_in tags.new)) }
    ensures stays_formed { StaysFormed tags_ok tags.old tags.new }
{
    sigatuda_tag_replace(tags, name, &vid, earlier)
}
