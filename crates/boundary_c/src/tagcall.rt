// The calls on tags: read, exists, delete and replace.
ghost use Rattle.std.specs.Prelude.{◌≡◌};
ghost use Rattle.basics.specs.Answers.{code};
ghost use Rattle.rules.specs.Reads.{tag_read, tag_exists, tag_delete, tag_replace};
ghost use Rattle.layout.specs.Records.{tag_bytes};
ghost use Rattle.layout.specs.Tables.{tags_in, tags_ok};
ghost use Rattle.layout.specs.Lent.{lent, after};
ghost use Rattle.tagcalls.specs.Says.{earlier as earlier_of};
ghost use Rattle.arguments.specs.Replies.{numbered_reply, yes_or_no, value_or};

use arguments::Reply;

// The volume that a tag names, or nothing: 20, 1.
#[unsafe(no_mangle)]
pub extern "C" fn sigatuda_tag_read(tags: &[u8], name: &[u8], vid: &mut [u8; 16]) -> Reply
    ensures { (result, vid.new) ≡ value_or (λ v. v) vid.old (lent (tags_ok tags.now) (tag_read (tags_in tags.now) name.now)) }
{
    boundary::tagcall::sigatuda_tag_read(tags, name, vid)
}

// Whether a tag is stored: 20, 1.
#[unsafe(no_mangle)]
pub extern "C" fn sigatuda_tag_exists(tags: &[u8], name: &[u8]) -> Reply
    ensures { result ≡ yes_or_no (lent (tags_ok tags.now) (tag_exists (tags_in tags.now) name.now)) }
{
    boundary::tagcall::sigatuda_tag_exists(tags, name)
}

// A tag deleted; where there is none, nothing changes: 20, 1.
#[unsafe(no_mangle)]
pub extern "C" fn sigatuda_tag_delete(tags: &mut [u8], name: &[u8]) -> Reply
    ensures value { result ≡ numbered_reply (code (lent (tags_ok tags.old) (tag_delete (tags_in tags.old) name.now))) }
    ensures tags_after { tags.new ≡ after tag_bytes (λ t. t) tags.old (lent (tags_ok tags.old) (tag_delete (tags_in tags.old) name.now)) }
{
    boundary::tagcall::sigatuda_tag_delete(tags, name)
}

// The name names that volume from now on; the volume that it named before, or nothing: 20, 1, 19.
#[unsafe(no_mangle)]
pub extern "C" fn sigatuda_tag_replace(
    tags: &mut [u8],
    name: &[u8],
    vid: &[u8; 16],
    earlier: &mut [u8; 16],
) -> Reply
    ensures earlier_after { (result, earlier.new) ≡ value_or (λ v. v) earlier.old (earlier_of (lent (tags_ok tags.old) (tag_replace (tags_in tags.old) name.now vid.now))) }
    ensures tags_after { tags.new ≡ after tag_bytes (λ p. p.1) tags.old (lent (tags_ok tags.old) (tag_replace (tags_in tags.old) name.now vid.now)) }
{
    boundary::tagcall::sigatuda_tag_replace(tags, name, vid, earlier)
}
