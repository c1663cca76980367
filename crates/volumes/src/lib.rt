// The table of volumes in lent bytes: its form, lookups, and stores, in the words of document 01's tables.
#![tactic(auto)]

ghost use Rattle.std.specs.Prelude.{◌≡◌, ◌<◌, true, ◌∷◌, Ok};
ghost use Rattle.std.proofs.Math.Option.{some, map};
ghost use Rattle.basics.specs.Orders.{bytes};
ghost use Rattle.rules.specs.Lists.{is_none};
ghost use Rattle.rules.specs.Records.{volume_key};
ghost use Rattle.rules.specs.Forms.{volume_form};
ghost use Rattle.rules.specs.Tables.{store, remove, fits, same_id, get_volume};
ghost use Rattle.table.specs.Records.{spot};
ghost use Rattle.table.specs.Table.{count_of, recs};
ghost use Rattle.volume.specs.Volumes.{volume_says};
ghost use Rattle.volumebytes.specs.Laid.{volume_laid};
ghost use Rattle.layout.specs.Records.{volume_bytes};
ghost use Rattle.layout.specs.Tables.{volumes_in, volumes_ok, laid_over};
ghost use Rattle.rows.specs.Lookups.{nth};
ghost use Rattle.volumes.specs.Lookups.{Found};
ghost use Rattle.rows.proofs.Rows.{formed_tests};
ghost use Rattle.rows.proofs.Tables.{volumes};
ghost use Rattle.std.proofs.Common.{lit<, lit≤};
ghost use Rattle.layout.specs.Codecs.{in_form};

use basics::id::VolumeId;
use layout::{VOLUME, VOLUME_KEY};
use octets::store_id;
use rows::Kind;
use volume::volume::Volume;
use volumebytes::{put_out, volume_form, volume_read};

// Volumes as a kind of record.
struct Volumes;

impl Kind for Volumes {
    ghost form = { λ b. in_form volume_bytes volume_form b };

    ghost table = { λ t. volumes_ok t };

    const SIZE: usize = VOLUME;

    ghost SIZE = { 117 };

    const KEY: usize = VOLUME_KEY;

    ghost KEY = { 17 };

    fn in_form(s: &[u8], at: usize) -> bool {
        volume_form(s, at)
    }

    ghost sized = { lit< tt };

    ghost short = { lit≤ tt };

    ghost tests = { λ t. formed_tests volumes t };
}

// Whether bytes are a table of volumes: their count, the order of their keys and the form of each (20).
pub fn volumes_formed(t: &[u8]) -> bool
    ensures { result ≡ volumes_ok t.now }
{
    rows::formed::<Volumes>(t)
}

// The key of an identifier.
fn volume_key(vid: VolumeId) -> [u8; 17]
    ensures { result ≡ 0 ∷ vid }
{
    let mut key = [0u8; 17];
    store_id(&mut key, 1, vid);
    key
}

// The bytes of a volume.
fn volume_row(v: Volume) -> [u8; 117]
    ensures { result ≡ volume_bytes.spell (volume_says v) }
{
    let mut row = [0u8; 117];
    put_out(&mut row, v);
    row
}

// Where the volume of an identifier stands.
pub fn find_volume(t: &[u8], vid: VolumeId) -> Result<usize, usize>
    requires { volumes_ok t.now ≡ true }
    ensures { Found t.now vid result }
{
    let key = volume_key(vid);
    table::find(t, VOLUME, VOLUME_KEY, &key)
}

// Whether no volume of an identifier is stored.
pub fn vid_free(t: &[u8], vid: VolumeId) -> bool
    requires { volumes_ok t.now ≡ true }
    ensures { result ≡ is_none (get_volume (volumes_in t.now) vid) }
{
    match find_volume(t, vid) {
        Ok(_) => false,
        Err(_) => true,
    }
}

// The volume at a place.
pub fn volume_at(t: &[u8], i: usize) -> Volume
    requires { (volumes_ok t.now ≡ true) × (i < count_of t.now) }
    ensures { map volume_laid (nth i (volumes_in t.now).rows) ≡ some result }
{
    volume_read(t, 2 + i * VOLUME)
}

// Whether there is room for a volume: its identifier is stored, or one record more fits.
pub fn room_for_volume(t: &[u8], v: Volume) -> bool
    requires { (volumes_ok t.now ≡ true) × (volume_form (volume_says v) ≡ true) }
    ensures { result ≡ fits (store volume_key bytes (volume_says v) (volumes_in t.now)) }
{
    let row = volume_row(v);
    table::room(t, VOLUME, VOLUME_KEY, &row)
}

// A volume in the place where its identifier was found.
pub fn store_volume(t: &mut [u8], i: usize, v: Volume)
    requires t_value { (volumes_ok t.old ≡ true) × (volume_form (volume_says v) ≡ true) }
    requires t_value_2 { spot 17 (0 ∷ v.vid) (recs 117 t.old) ≡ Ok i }
    ensures { t.new ≡ laid_over volume_bytes (store volume_key bytes (volume_says v) (volumes_in t.old)) t.old }
{
    let row = volume_row(v);
    table::overwrite(t, VOLUME, i, &row);
}

// A volume in the place of the one of its identifier, or in its place in the order; there is room for it.
pub fn put_volume(t: &mut [u8], v: Volume)
    requires t_value { (volumes_ok t.old ≡ true) × (volume_form (volume_says v) ≡ true) }
    requires t_value_2 { fits (store volume_key bytes (volume_says v) (volumes_in t.old)) ≡ true }
    ensures { t.new ≡ laid_over volume_bytes (store volume_key bytes (volume_says v) (volumes_in t.old)) t.old }
{
    let row = volume_row(v);
    table::put(t, VOLUME, VOLUME_KEY, &row);
}

// The volume of an identifier goes; where there is none, nothing does.
pub fn remove_volume(t: &mut [u8], vid: VolumeId)
    requires { volumes_ok t.old ≡ true }
    ensures { t.new ≡ laid_over volume_bytes (remove (λ v. same_id vid v.vid) (volumes_in t.old)) t.old }
{
    let Ok(i) = find_volume(t, vid) else {
        return;
    };
    table::remove(t, VOLUME, i);
}
