// Tags in lent bytes: a tag's form and bytes (50 of them, docs/TABLES.md), and their table: its form, lookups, and stores, in the words of document 01's tables.
#![tactic(auto)]

ghost use Rattle.std.specs.Prelude.{◌≡◌, ◌+◌, ◌<◌, ◌≤◌, true, length};
ghost use Rattle.std.proofs.Math.Option.{some, map};
ghost use Rattle.octets.specs.Bytes.{be, part};
ghost use Rattle.basics.specs.Orders.{bytes};
ghost use Rattle.rules.specs.Records.{Id, Tag, tag_key};
ghost use Rattle.rules.specs.Forms.{id_form, name_length, tag_form};
ghost use Rattle.rules.specs.Tables.{store, remove, fits, same_id};
ghost use Rattle.table.specs.Table.{count_of};
ghost use Rattle.layout.specs.Codecs.{in_form};
ghost use Rattle.layout.specs.Records.{tag_of, tag_bytes};
ghost use Rattle.layout.specs.Tables.{tags_in, tags_ok, laid_over};
ghost use Rattle.rows.specs.Lookups.{nth};
ghost use Rattle.tags.specs.Lookups.{key_bytes, Found};
ghost use Rattle.rows.proofs.Rows.{formed_tests};
ghost use Rattle.rows.proofs.Tables.{tags};
ghost use Rattle.std.proofs.Common.{lit<, lit≤};

use basics::id::VolumeId;
use layout::{TAG, TAG_KEY};
use octets::{all_zero, load_id, load8, store_all, store_id, store8};
use rows::Kind;

// The byte at a place, as a length.
fn length_at(s: &[u8], at: usize) -> usize
    requires { at + 1 ≤ length s.now }
    ensures { result ≡ be (part at 1 s.now) }
{
    load8(s, at) as usize
}

// Whether the 50 bytes at a place are a tag: a name of 1 to 32 bytes, zero past its length.
pub fn tag_form(s: &[u8], at: usize) -> bool
    requires { at + 50 ≤ length s.now }
    ensures { result ≡ in_form tag_bytes tag_form (part at 50 s.now) }
{
    if load8(s, at) != 0 {
        return false;
    }
    let n = length_at(s, at + 33);
    if n == 0 {
        return false;
    }
    if 32 < n {
        return false;
    }
    all_zero(s, at + 1 + n, 32 - n)
}

// The key of a name.
fn tag_key(name: &[u8]) -> [u8; 34]
    requires { name_length name.now ≡ true }
    ensures { result ≡ key_bytes.spell name.now }
{
    let mut key = [0u8; 34];
    store_all(&mut key, 1, name);
    store8(&mut key, 33, name.len() as u8);
    key
}

// The bytes of a tag.
fn tag_row(name: &[u8], vid: VolumeId) -> [u8; 50]
    requires { name_length name.now ≡ true }
    ensures { result ≡ tag_bytes.spell (tag_of (name.now, vid)) }
{
    let key = tag_key(name);
    let mut row = [0u8; 50];
    store_all(&mut row, 0, &key);
    store_id(&mut row, 34, vid);
    row
}

// Tags as a kind of record.
struct Tags;

impl Kind for Tags {
    ghost form = { λ b. in_form tag_bytes tag_form b };

    ghost table = { λ t. tags_ok t };

    const SIZE: usize = TAG;

    ghost SIZE = { 50 };

    const KEY: usize = TAG_KEY;

    ghost KEY = { 34 };

    fn in_form(s: &[u8], at: usize) -> bool {
        tag_form(s, at)
    }

    ghost sized = { lit< tt };

    ghost short = { lit≤ tt };

    ghost tests = { λ t. formed_tests tags t };
}

// Whether bytes are a table of tags: their count, the order of their keys and the form of each (20).
pub fn tags_formed(t: &[u8]) -> bool
    ensures { result ≡ tags_ok t.now }
{
    rows::formed::<Tags>(t)
}

// Where the tag of a name stands.
pub fn find_tag(t: &[u8], name: &[u8]) -> Result<usize, usize>
    requires { (tags_ok t.now ≡ true) × (name_length name.now ≡ true) }
    ensures { Found t.now name.now result }
{
    let key = tag_key(name);
    table::find(t, TAG, TAG_KEY, &key)
}

// The volume that the tag at a place names.
pub fn tagged_at(t: &[u8], i: usize) -> VolumeId
    requires { (tags_ok t.now ≡ true) × (i < count_of t.now) }
    ensures { map (λ (g : Tag). g.vid) (nth i (tags_in t.now).rows) ≡ some result }
{
    load_id(t, 2 + i * TAG + 34)
}

// Whether there is room for a tag of that name, whatever volume it names: the name is stored, or one record more fits.
pub fn room_for_tag(t: &[u8], name: &[u8]) -> bool
    requires { (tags_ok t.now ≡ true) × (name_length name.now ≡ true) }
    ensures { (vid : Id) → id_form vid ≡ true → result ≡ fits (store tag_key bytes (tag_of (name.now, vid)) (tags_in t.now)) }
{
    match find_tag(t, name) {
        Ok(_) => true,
        Err(_) => table::room_for(t, TAG, 1),
    }
}

// The name names that volume from now on; there is room for the tag.
pub fn put_tag(t: &mut [u8], name: &[u8], vid: VolumeId)
    requires t_value { (tags_ok t.old ≡ true) × (name_length name.now ≡ true) }
    requires t_value_2 { fits (store tag_key bytes (tag_of (name.now, vid)) (tags_in t.old)) ≡ true }
    ensures { t.new ≡ laid_over tag_bytes (store tag_key bytes (tag_of (name.now, vid)) (tags_in t.old)) t.old }
{
    let row = tag_row(name, vid);
    table::put(t, TAG, TAG_KEY, &row);
}

// The tag of a name goes; where there is none, nothing does.
pub fn remove_tag(t: &mut [u8], name: &[u8])
    requires { (tags_ok t.old ≡ true) × (name_length name.now ≡ true) }
    ensures { t.new ≡ laid_over tag_bytes (remove (λ g. same_id name.now g.name) (tags_in t.old)) t.old }
{
    let Ok(i) = find_tag(t, name) else {
        return;
    };
    table::remove(t, TAG, i);
}
