// Commits and segments by value, with builders that change one field and keep all others; and runs of a segment's bytes.
#![tactic(auto)]

ghost use Rattle.std.specs.Prelude.{◌≡◌};
ghost use Rattle.basics.specs.Hashes.{zero_hash};
ghost use Rattle.commit.specs.Says.{zero_range};
ghost use Rattle.commit.specs.Builders.{zero_frames, zero_lsns, zero_segment, new_segment, with_frames, new_commit, with_log, with_lsn, with_hash, with_segment, with_checkpoints};

use basics::commit_hash;
use basics::commit_hash::CommitHash;
use basics::id::{LogId, SegmentId};
use basics::lsn::Lsn;
use basics::page_count::PageCount;
use basics::pageidx::PageIdx;
use pageset::{PageSet, sets};

// Whether what stands beside it counts. Where it is missing, zeros stand there.
#[derive(Clone, Copy)]
pub enum Presence {
    Missing,
    Given,
}

// A frame of a segment: its size in bytes, and its last page.
#[derive(Clone, Copy)]
pub struct Frame {
    pub size: u64,
    pub last: PageIdx,
}

// A segment: its identifier, its pages and its frames. The first `len` frames count; those past them are zero.
#[derive(Clone, Copy)]
pub struct SegmentIdx {
    pub sid: SegmentId,
    pub pages: PageSet,
    pub len: usize,
    pub frames: [Frame; 16],
}

// A commit. Its hash and its segment may be missing; the first `listed` checkpoints count, and those past them are zero.
#[derive(Clone, Copy)]
pub struct Commit {
    pub log: LogId,
    pub lsn: Lsn,
    pub count: PageCount,
    pub has_hash: Presence,
    pub hash: CommitHash,
    pub has_segment: Presence,
    pub segment: SegmentIdx,
    pub listed: usize,
    pub checkpoints: [Lsn; 8],
}

// A run of a segment's bytes, from start up to but not at end, and its pages.
#[derive(Clone, Copy)]
pub struct SegmentRange {
    pub sid: SegmentId,
    pub start: u64,
    pub end: u64,
    pub pages: PageSet,
}

// Sixteen frames, all zero.
pub fn no_frames() -> [Frame; 16]
    ensures { result ≡ zero_frames }
{
    let none = Frame {
        size: 0,
        last: PageIdx(0),
    };
    [none; 16]
}

// Eight LSNs, all zero.
pub fn no_checkpoints() -> [Lsn; 8]
    ensures { result ≡ zero_lsns }
{
    [Lsn(0); 8]
}

impl SegmentIdx {
    // A segment without frames.
    pub fn new(sid: SegmentId, pages: PageSet) -> SegmentIdx
        ensures { result ≡ new_segment sid pages }
    {
        let frames = no_frames();
        SegmentIdx {
            sid,
            pages,
            len: 0,
            frames,
        }
    }

    // What stands where a segment is missing.
    pub fn zero() -> SegmentIdx
        ensures { result ≡ zero_segment }
    {
        SegmentIdx::new([0u8; 16], sets::empty())
    }

    // The segment with these frames.
    pub fn with_frames(mut self, len: usize, frames: [Frame; 16]) -> SegmentIdx
        ensures { result ≡ with_frames self len frames }
    {
        self.len = len;
        self.frames = frames;
        self
    }
}

impl SegmentRange {
    // What stands where there is no range.
    pub fn zero() -> SegmentRange
        ensures { result ≡ zero_range }
    {
        let pages = sets::empty();
        SegmentRange {
            sid: [0u8; 16],
            start: 0,
            end: 0,
            pages,
        }
    }
}

impl Commit {
    // A commit without hash, segment and checkpoints.
    pub fn new(log: LogId, lsn: Lsn, count: PageCount) -> Commit
        ensures { result ≡ new_commit log lsn count }
    {
        let hash = commit_hash::zero();
        let segment = SegmentIdx::zero();
        let checkpoints = no_checkpoints();
        Commit {
            log,
            lsn,
            count,
            has_hash: Presence::Missing,
            hash,
            has_segment: Presence::Missing,
            segment,
            listed: 0,
            checkpoints,
        }
    }

    // The commit in another log.
    pub fn with_log_id(mut self, log: LogId) -> Commit
        ensures { result ≡ with_log self log }
    {
        self.log = log;
        self
    }

    // The commit at another LSN.
    pub fn with_lsn(mut self, lsn: Lsn) -> Commit
        ensures { result ≡ with_lsn self lsn }
    {
        self.lsn = lsn;
        self
    }

    // The commit with a hash, or with what stands beside a missing one.
    fn hashed(mut self, has: Presence, hash: CommitHash) -> Commit
        ensures { result ≡ with_hash self has hash }
    {
        self.has_hash = has;
        self.hash = hash;
        self
    }

    // The commit with this hash.
    pub fn with_commit_hash(self, hash: CommitHash) -> Commit
        ensures { result ≡ with_hash self Presence.Given hash }
    {
        self.hashed(Presence::Given, hash)
    }

    // The commit without a hash.
    pub fn without_commit_hash(self) -> Commit
        ensures { result ≡ with_hash self Presence.Missing zero_hash }
    {
        self.hashed(Presence::Missing, commit_hash::zero())
    }

    // The commit with a segment, or with what stands beside a missing one.
    fn segmented(mut self, has: Presence, segment: SegmentIdx) -> Commit
        ensures { result ≡ with_segment self has segment }
    {
        self.has_segment = has;
        self.segment = segment;
        self
    }

    // The commit with this segment.
    pub fn with_segment_idx(self, segment: SegmentIdx) -> Commit
        ensures { result ≡ with_segment self Presence.Given segment }
    {
        self.segmented(Presence::Given, segment)
    }

    // The commit without a segment.
    pub fn without_segment_idx(self) -> Commit
        ensures { result ≡ with_segment self Presence.Missing zero_segment }
    {
        self.segmented(Presence::Missing, SegmentIdx::zero())
    }

    // The commit with these checkpoints.
    pub fn with_checkpoints(mut self, listed: usize, checkpoints: [Lsn; 8]) -> Commit
        ensures { result ≡ with_checkpoints self listed checkpoints }
    {
        self.listed = listed;
        self.checkpoints = checkpoints;
        self
    }
}
