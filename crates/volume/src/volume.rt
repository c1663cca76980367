// Volumes: two logs, the sync point and the pending commit; and what changed in a log since a base.
ghost use Rattle.std.specs.Prelude.{◌≡◌};
ghost use Rattle.std.proofs.Math.Option.{none, some};
ghost use Rattle.basics.specs.Numbers.{counts};
ghost use Rattle.rules.specs.Lists.{given};
ghost use Rattle.rules.specs.Sync.{changed, changes as changes_rule};
ghost use Rattle.volume.specs.Volumes.{maybe_lsn_says, changes_says};

use basics::commit_hash::CommitHash;
use basics::id::{LogId, VolumeId};
use basics::lsn::Lsn;
use basics::refusal::Refusal;

// The remote LSN that was synced, and the watermark: the local LSN that was pushed.
#[derive(Clone, Copy, Debug, PartialEq, Eq)]
pub struct SyncPoint {
    pub remote: Lsn,
    pub watermark: Option<Lsn>,
}

// A prepared push: the local LSN, the LSN of the remote commit, and its hash.
#[derive(Clone, Copy, Debug, PartialEq, Eq)]
pub struct PendingCommit {
    pub local: Lsn,
    pub commit: Lsn,
    pub hash: CommitHash,
}

// A volume.
#[derive(Clone, Copy, Debug, PartialEq, Eq)]
pub struct Volume {
    pub vid: VolumeId,
    pub local: LogId,
    pub remote: LogId,
    pub sync: Option<SyncPoint>,
    pub pending: Option<PendingCommit>,
}

// A range of LSNs, both ends included.
#[derive(Clone, Copy, Debug, PartialEq, Eq)]
pub struct LsnRange {
    pub start: Lsn,
    pub end: Lsn,
}

impl Volume {
    // A volume of these fields.
    pub fn new(
        vid: VolumeId,
        local: LogId,
        remote: LogId,
        sync: Option<SyncPoint>,
        pending: Option<PendingCommit>,
    ) -> Volume
        ensures { result ≡ record { vid = vid; local = local; remote = remote; sync = sync; pending = pending } }
    {
        Volume {
            vid,
            local,
            remote,
            sync,
            pending,
        }
    }

    // The volume with this sync point, or with none.
    pub fn with_sync(self, sync: Option<SyncPoint>) -> Volume
        ensures { result ≡ record { vid = self.vid; local = self.local; remote = self.remote; sync = sync; pending = self.pending } }
    {
        Volume { sync, ..self }
    }

    // The volume with this pending commit, or with none.
    pub fn with_pending_commit(self, pending: Option<PendingCommit>) -> Volume
        ensures { result ≡ record { vid = self.vid; local = self.local; remote = self.remote; sync = self.sync; pending = pending } }
    {
        Volume { pending, ..self }
    }
}

// Whether an LSN is missing or not 0.
fn counts_or_missing(n: Option<Lsn>) -> bool
    ensures { result ≡ given counts (maybe_lsn_says n) }
{
    match n {
        None => true,
        Some(lsn) => 0 < lsn.0,
    }
}

// Without a base: all LSNs up to the head, or nothing where it is missing too.
fn all_changes(head: Option<Lsn>) -> Result<Option<LsnRange>, Refusal>
    ensures { changes_says result ≡ changed none (maybe_lsn_says head) }
{
    match head {
        None => Ok(None),
        Some(end) => Ok(Some(LsnRange { start: Lsn(1), end })),
    }
}

// Above a base: the LSNs up to the head, or nothing where the base is not below it; 16 where it is missing.
fn changes_above(base: Lsn, head: Option<Lsn>) -> Result<Option<LsnRange>, Refusal>
    ensures { changes_says result ≡ changed (some base.0) (maybe_lsn_says head) }
{
    let Some(end) = head else {
        return Err(Refusal::BaseWithoutHead);
    };
    let b = base.0;
    let h = end.0;
    if b < h {
        let start = Lsn(b + 1);
        return Ok(Some(LsnRange { start, end }));
    }
    Ok(None)
}

// The LSNs above the base up to the head, or nothing: 1 for LSN 0, 16 for a base without a head.
pub fn changes(base: Option<Lsn>, head: Option<Lsn>) -> Result<Option<LsnRange>, Refusal>
    ensures { changes_says result ≡ changes_rule (maybe_lsn_says base) (maybe_lsn_says head) }
{
    if !counts_or_missing(base) {
        return Err(Refusal::Zero);
    }
    if !counts_or_missing(head) {
        return Err(Refusal::Zero);
    }
    match base {
        None => all_changes(head),
        Some(b) => changes_above(b, head),
    }
}
