// Snapshots: a path of at most 8 log ranges, and a page count.
ghost use Rattle.std.specs.Prelude.{◌≡◌, ◌<◌, []};
ghost use Rattle.rules.specs.Arguments.{range_lsns, range_order, snapshot_lsns, snapshot_order, snapshot_new};
ghost use Rattle.volume.specs.Snapshots.{range_says, snapshot_says, no_range, is_zero_range, in_form, laid, answer_says, laid_answer, with_range, appended, head_says, head_of, is_empty_path};

use basics::id;
use basics::id::LogId;
use basics::logref::LogRef;
use basics::lsn::Lsn;
use basics::page_count::PageCount;
use basics::refusal::Refusal;

// A log and a range of its LSNs, both ends included.
#[derive(Clone, Copy, Debug, PartialEq, Eq)]
pub struct LogRange {
    pub log: LogId,
    pub start: Lsn,
    pub end: Lsn,
}

// A snapshot: the first `len` ranges of the path, and the page count. What lies past `len` is zero.
#[derive(Clone, Copy, Debug, PartialEq, Eq)]
pub struct Snapshot {
    pub len: usize,
    pub path: [LogRange; 8],
    pub count: PageCount,
}

impl LogRange {
    // The range that stands where there is none.
    fn zero() -> LogRange
        ensures { result ≡ no_range }
    {
        let log = [0u8; 16];
        LogRange {
            log,
            start: Lsn(0),
            end: Lsn(0),
        }
    }

    // Whether all of the range is zero.
    fn is_zero(self) -> bool
        ensures { result ≡ is_zero_range self }
    {
        let log = self.log;
        if self.start.0 != 0 {
            return false;
        }
        if self.end.0 != 0 {
            return false;
        }
        id::same(log, [0u8; 16])
    }

    // Whether neither LSN is 0.
    pub fn has_lsns(self) -> bool
        ensures { result ≡ range_lsns (range_says self) }
    {
        if self.start.0 == 0 {
            return false;
        }
        0 < self.end.0
    }

    // Whether the start is not above the end.
    pub fn is_ordered(self) -> bool
        ensures { result ≡ range_order (range_says self) }
    {
        self.start.0 <= self.end.0
    }
}

impl Snapshot {
    // A snapshot of no range.
    pub fn empty(count: PageCount) -> Snapshot
        ensures { result ≡ laid (record { path = []; count = count.0 }) }
    {
        let zero = LogRange::zero();
        let path = [zero; 8];
        Snapshot {
            len: 0,
            path,
            count,
        }
    }

    // Whether no LSN of its ranges is 0.
    pub fn has_lsns(self) -> bool
        ensures { result ≡ snapshot_lsns (snapshot_says self) }
    {
        self.path
            .iter()
            .take(self.len)
            .all(|range| range.has_lsns())
    }

    // Whether no range starts above its end.
    pub fn is_ordered(self) -> bool
        ensures { result ≡ snapshot_order (snapshot_says self) }
    {
        self.path
            .iter()
            .take(self.len)
            .all(|range| range.is_ordered())
    }

    // Whether it has at most 8 ranges, and zero past them.
    pub fn is_formed(self) -> bool
        ensures { result ≡ in_form self }
    {
        if 8 < self.len {
            return false;
        }
        self.path[self.len..].iter().all(|range| range.is_zero())
    }

    // The same with a range more, the last of the path.
    fn with_range(mut self, range: LogRange) -> Snapshot
        requires { self.len < 8 }
        ensures { result ≡ with_range self range }
    {
        self.path[self.len] = range;
        self.len += 1;
        self
    }

    // A snapshot of one range: 1 for an LSN 0, 2 for a start above the end.
    pub fn new(range: LogRange, count: PageCount) -> Result<Snapshot, Refusal>
        ensures { answer_says result ≡ laid_answer (snapshot_new (range_says range) count.0) }
    {
        if !range.has_lsns() {
            return Err(Refusal::Zero);
        }
        if !range.is_ordered() {
            return Err(Refusal::Reversed);
        }
        Ok(Snapshot::empty(count).with_range(range))
    }

    // The snapshot with a range more, the last of the path: 1 for an LSN 0, 2 for a start above the end, 3 for a ninth range or a snapshot that is not in form.
    pub fn append(self, range: LogRange) -> Result<Snapshot, Refusal>
        ensures { answer_says result ≡ laid_answer (appended self range) }
    {
        if !self.has_lsns() {
            return Err(Refusal::Zero);
        }
        if !range.has_lsns() {
            return Err(Refusal::Zero);
        }
        if !self.is_ordered() {
            return Err(Refusal::Reversed);
        }
        if !range.is_ordered() {
            return Err(Refusal::Reversed);
        }
        if !self.is_formed() {
            return Err(Refusal::Form);
        }
        if 8 <= self.len {
            return Err(Refusal::Form);
        }
        Ok(self.with_range(range))
    }

    // The log and the end of the path's first range, or nothing.
    pub fn head(self) -> Option<LogRef>
        ensures { head_says result ≡ head_of (snapshot_says self) }
    {
        let path = self.path;
        if self.len == 0 {
            return None;
        }
        let first = path[0];
        let log = first.log;
        Some(LogRef {
            log,
            lsn: first.end,
        })
    }

    // Whether no range is on the path.
    pub fn is_empty(self) -> bool
        ensures { result ≡ is_empty_path (snapshot_says self) }
    {
        self.len == 0
    }
}
