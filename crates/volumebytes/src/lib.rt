// A volume in bytes: its form, its value and its bytes at a place of a lent slice (docs/TABLES.md).
#![tactic(auto)]

pub mod pending;
pub mod sync;

ghost use Rattle.std.specs.Prelude.{◌≡◌, ◌+◌, ◌≤◌, length};
ghost use Rattle.octets.specs.Bytes.{part, put};
ghost use Rattle.rules.specs.Forms.{volume_form};
ghost use Rattle.volume.specs.Volumes.{volume_says};
ghost use Rattle.layout.specs.Codecs.{in_form};
ghost use Rattle.layout.specs.Records.{volume_bytes};
ghost use Rattle.volumebytes.specs.Laid.{volume_laid};

use octets::{load_id, load8, store_id, store8};
use volume::volume::Volume;

// Whether the 117 bytes at a place are a volume.
pub fn volume_form(s: &[u8], at: usize) -> bool
    requires { at + 117 ≤ length s.now }
    ensures { result ≡ in_form volume_bytes volume_form (part at 117 s.now) }
{
    if load8(s, at) != 0 {
        return false;
    }
    if load8(s, at + 17) != 0 {
        return false;
    }
    if !sync::sync_form(s, at + 50) {
        return false;
    }
    pending::pending_form(s, at + 68)
}

// The volume in the 117 bytes at a place.
pub fn volume_read(s: &[u8], at: usize) -> Volume
    requires { at + 117 ≤ length s.now }
    ensures { result ≡ volume_laid (volume_bytes.read (part at 117 s.now)) }
{
    let vid = load_id(s, at + 1);
    let local = load_id(s, at + 18);
    let remote = load_id(s, at + 34);
    let sync = sync::sync_read(s, at + 50);
    let pending = pending::pending_read(s, at + 68);
    Volume::new(vid, local, remote, sync, pending)
}

// The volume over the 117 bytes at a place.
pub fn volume_write(s: &mut [u8], at: usize, v: Volume)
    requires { at + 117 ≤ length s.old }
    ensures { s.new ≡ put at (volume_bytes.spell (volume_says v)) s.old }
{
    store8(s, at, 0);
    store_id(s, at + 1, v.vid);
    store8(s, at + 17, 0);
    store_id(s, at + 18, v.local);
    store_id(s, at + 34, v.remote);
    sync::sync_write(s, at + 50, v.sync);
    pending::pending_write(s, at + 68, v.pending);
}

// The bytes of a volume over as many lent ones.
pub fn put_out(out: &mut [u8], v: Volume)
    requires { length out.old ≡ 117 }
    ensures { out.new ≡ volume_bytes.spell (volume_says v) }
{
    volume_write(out, 0, v);
}
