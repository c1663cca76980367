// The sync point of a volume in 18 bytes: a flag, the remote LSN, and the watermark in 9 bytes: a flag and an LSN.
ghost use Rattle.std.specs.Prelude.{◌≡◌, ◌+◌, ◌≤◌, length};
ghost use Rattle.octets.specs.Bytes.{part, put};
ghost use Rattle.rules.specs.Lists.{given};
ghost use Rattle.rules.specs.Forms.{lsn_form, sync_form};
ghost use Rattle.volume.specs.Volumes.{maybe_lsn_says, sync_says};
ghost use Rattle.layout.specs.Codecs.{number, optional, in_form};
ghost use Rattle.layout.specs.Records.{sync_bytes};
ghost use Rattle.volumebytes.specs.Laid.{mark_laid, sync_laid};

use basics::lsn::Lsn;
use octets::{all_zero, load8, load64, store_all, store8, store64};
use volume::volume::SyncPoint;

// Whether the 9 bytes at a place are a watermark, or none.
fn watermark_form(s: &[u8], at: usize) -> bool
    requires { at + 9 ≤ length s.now }
    ensures { result ≡ in_form (optional (number 8)) (given lsn_form) (part at 9 s.now) }
{
    let flag = load8(s, at);
    if flag == 0 {
        return all_zero(s, at + 1, 8);
    }
    if flag != 1 {
        return false;
    }
    0 < load64(s, at + 1)
}

// Whether the 17 bytes at a place are a sync point: its remote LSN and its watermark.
fn point_form(s: &[u8], at: usize) -> bool
    requires { at + 17 ≤ length s.now }
    ensures { result ≡ in_form sync_bytes sync_form (part at 17 s.now) }
{
    if load64(s, at) == 0 {
        return false;
    }
    watermark_form(s, at + 8)
}

// Whether the 18 bytes at a place are a sync point, or none.
pub fn sync_form(s: &[u8], at: usize) -> bool
    requires { at + 18 ≤ length s.now }
    ensures { result ≡ in_form (optional sync_bytes) (given sync_form) (part at 18 s.now) }
{
    let flag = load8(s, at);
    if flag == 0 {
        return all_zero(s, at + 1, 17);
    }
    if flag != 1 {
        return false;
    }
    point_form(s, at + 1)
}

// The watermark in the 9 bytes at a place.
fn watermark_read(s: &[u8], at: usize) -> Option<Lsn>
    requires { at + 9 ≤ length s.now }
    ensures { result ≡ mark_laid ((optional (number 8)).read (part at 9 s.now)) }
{
    if load8(s, at) == 0 {
        return None;
    }
    Some(Lsn(load64(s, at + 1)))
}

// The sync point in the 18 bytes at a place.
pub fn sync_read(s: &[u8], at: usize) -> Option<SyncPoint>
    requires { at + 18 ≤ length s.now }
    ensures { result ≡ sync_laid ((optional sync_bytes).read (part at 18 s.now)) }
{
    if load8(s, at) == 0 {
        return None;
    }
    let remote = Lsn(load64(s, at + 1));
    let watermark = watermark_read(s, at + 9);
    Some(SyncPoint { remote, watermark })
}

// The watermark over the 9 bytes at a place; zeros where it is missing.
fn watermark_write(s: &mut [u8], at: usize, watermark: Option<Lsn>)
    requires { at + 9 ≤ length s.old }
    ensures { s.new ≡ put at ((optional (number 8)).spell (maybe_lsn_says watermark)) s.old }
{
    let Some(lsn) = watermark else {
        let none = [0u8; 9];
        store_all(s, at, &none);
        return;
    };
    store8(s, at, 1);
    store64(s, at + 1, lsn.0);
}

// The sync point over the 18 bytes at a place; zeros where it is missing.
pub fn sync_write(s: &mut [u8], at: usize, sync: Option<SyncPoint>)
    requires { at + 18 ≤ length s.old }
    ensures { s.new ≡ put at ((optional sync_bytes).spell (sync_says sync)) s.old }
{
    let Some(point) = sync else {
        let none = [0u8; 18];
        store_all(s, at, &none);
        return;
    };
    let remote = point.remote;
    let watermark = point.watermark;
    store8(s, at, 1);
    store64(s, at + 1, remote.0);
    watermark_write(s, at + 9, watermark);
}
