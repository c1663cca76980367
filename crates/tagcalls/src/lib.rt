// The calls on tags: read, exists, delete and replace. Each answers on every input: 20, then 1 for a name that is not of 1 to 32 bytes.
#![tactic(auto)]

ghost use Rattle.std.specs.Prelude.{◌≡◌, true};
ghost use Rattle.basics.specs.Answers.{code};
ghost use Rattle.basics.specs.Refusals.{code_of};
ghost use Rattle.pagecalls.specs.Says.{yes_says};
ghost use Rattle.rules.specs.Forms.{name_length};
ghost use Rattle.rules.specs.Reads.{tagged, tag_read, tag_exists, tag_delete, tag_replace};
ghost use Rattle.layout.specs.Records.{tag_bytes};
ghost use Rattle.layout.specs.Tables.{tags_in, tags_ok};
ghost use Rattle.layout.specs.Lent.{lent, after};
ghost use Rattle.tagcalls.specs.Says.{named_says, tagged_says, earlier};

use basics::id::VolumeId;
use basics::refusal::Refusal;
use tags::{find_tag, put_tag, remove_tag, room_for_tag, tagged_at, tags_formed};

// Whether a name has the length of a tag's name, 1 to 32 bytes.
fn is_name(name: &[u8]) -> bool
    ensures { result ≡ name_length name.now }
{
    let n = name.len();
    if n == 0 {
        return false;
    }
    if 32 < n {
        return false;
    }
    true
}

// The volume that a name names in a table of tags, or nothing.
fn named_volume(tags: &[u8], name: &[u8]) -> Option<VolumeId>
    requires { (tags_ok tags.now ≡ true) × (name_length name.now ≡ true) }
    ensures { named_says result ≡ tagged (tags_in tags.now) name.now }
{
    let Ok(i) = find_tag(tags, name) else {
        return None;
    };
    Some(tagged_at(tags, i))
}

// The volume that a tag names, or nothing: 20, 1.
pub fn tag_read(tags: &[u8], name: &[u8]) -> Result<Option<VolumeId>, Refusal>
    ensures { tagged_says result ≡ lent (tags_ok tags.now) (tag_read (tags_in tags.now) name.now) }
{
    if !tags_formed(tags) {
        return Err(Refusal::TableForm);
    }
    if !is_name(name) {
        return Err(Refusal::Zero);
    }
    Ok(named_volume(tags, name))
}

// Whether a tag is stored: 20, 1.
pub fn tag_exists(tags: &[u8], name: &[u8]) -> Result<bool, Refusal>
    ensures { yes_says result ≡ lent (tags_ok tags.now) (tag_exists (tags_in tags.now) name.now) }
{
    if !tags_formed(tags) {
        return Err(Refusal::TableForm);
    }
    if !is_name(name) {
        return Err(Refusal::Zero);
    }
    match find_tag(tags, name) {
        Ok(_) => Ok(true),
        Err(_) => Ok(false),
    }
}

// A tag deleted; where there is none, nothing is: 20, 1.
pub fn tag_delete(tags: &mut [u8], name: &[u8]) -> Result<(), Refusal>
    ensures value { code_of result ≡ code (lent (tags_ok tags.old) (tag_delete (tags_in tags.old) name.now)) }
    ensures tags_after { tags.new ≡ after tag_bytes (λ t. t) tags.old (lent (tags_ok tags.old) (tag_delete (tags_in tags.old) name.now)) }
{
    if !tags_formed(tags) {
        return Err(Refusal::TableForm);
    }
    if !is_name(name) {
        return Err(Refusal::Zero);
    }
    remove_tag(tags, name);
    Ok(())
}

// The name names that volume from now on; answers the volume that it named before, or nothing: 20, 1, 19.
pub fn tag_replace(tags: &mut [u8], name: &[u8], vid: VolumeId) -> Result<Option<VolumeId>, Refusal>
    ensures value { tagged_says result ≡ earlier (lent (tags_ok tags.old) (tag_replace (tags_in tags.old) name.now vid)) }
    ensures tags_after { tags.new ≡ after tag_bytes (λ p. p.1) tags.old (lent (tags_ok tags.old) (tag_replace (tags_in tags.old) name.now vid)) }
{
    if !tags_formed(tags) {
        return Err(Refusal::TableForm);
    }
    if !is_name(name) {
        return Err(Refusal::Zero);
    }
    if !room_for_tag(tags, name) {
        return Err(Refusal::NoRoom);
    }
    let before = named_volume(tags, name);
    put_tag(tags, name, vid);
    Ok(before)
}
