// The pending commit of a volume in 49 bytes: a flag, the local LSN, the LSN of the remote commit, its hash.
ghost use Rattle.std.specs.Prelude.{◌≡◌, ◌+◌, ◌≤◌, length};
ghost use Rattle.octets.specs.Bytes.{part, put};
ghost use Rattle.rules.specs.Lists.{given};
ghost use Rattle.rules.specs.Forms.{pending_form};
ghost use Rattle.volume.specs.Volumes.{pending_says};
ghost use Rattle.layout.specs.Codecs.{optional, in_form};
ghost use Rattle.layout.specs.Records.{pending_bytes};
ghost use Rattle.volumebytes.specs.Laid.{pending_laid};

use basics::lsn::Lsn;
use octets::{all_zero, load_hash, load8, load64, store_all, store_hash, store8, store64};
use volume::volume::PendingCommit;

// Whether the 48 bytes at a place are a pending commit; its hash may be any.
fn commit_form(s: &[u8], at: usize) -> bool
    requires { at + 48 ≤ length s.now }
    ensures { result ≡ in_form pending_bytes pending_form (part at 48 s.now) }
{
    if load64(s, at) == 0 {
        return false;
    }
    0 < load64(s, at + 8)
}

// Whether the 49 bytes at a place are a pending commit, or none.
pub fn pending_form(s: &[u8], at: usize) -> bool
    requires { at + 49 ≤ length s.now }
    ensures { result ≡ in_form (optional pending_bytes) (given pending_form) (part at 49 s.now) }
{
    let flag = load8(s, at);
    if flag == 0 {
        return all_zero(s, at + 1, 48);
    }
    if flag != 1 {
        return false;
    }
    commit_form(s, at + 1)
}

// The pending commit in the 49 bytes at a place, or none.
pub fn pending_read(s: &[u8], at: usize) -> Option<PendingCommit>
    requires { at + 49 ≤ length s.now }
    ensures { result ≡ pending_laid ((optional pending_bytes).read (part at 49 s.now)) }
{
    if load8(s, at) == 0 {
        return None;
    }
    let local = Lsn(load64(s, at + 1));
    let commit = Lsn(load64(s, at + 9));
    let hash = load_hash(s, at + 17);
    Some(PendingCommit {
        local,
        commit,
        hash,
    })
}

// The pending commit over the 49 bytes at a place; zeros where it is missing.
pub fn pending_write(s: &mut [u8], at: usize, pending: Option<PendingCommit>)
    requires { at + 49 ≤ length s.old }
    ensures { s.new ≡ put at ((optional pending_bytes).spell (pending_says pending)) s.old }
{
    let Some(p) = pending else {
        store_all(s, at, &[0u8; 49]);
        return;
    };
    store8(s, at, 1);
    store64(s, at + 1, p.local.0);
    store64(s, at + 9, p.commit.0);
    store_hash(s, at + 17, p.hash);
}
