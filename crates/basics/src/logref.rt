// A log and one of its LSNs.
ghost use Rattle.std.specs.Prelude.{◌≡◌};

use crate::id::LogId;
use crate::lsn::Lsn;

#[derive(Clone, Copy, Debug, PartialEq, Eq)]
pub struct LogRef {
    pub log: LogId,
    pub lsn: Lsn,
}

impl LogRef {
    // The reference to an LSN of a log.
    pub fn new(log: LogId, lsn: Lsn) -> LogRef
        ensures { (result.log ≡ log) × (result.lsn ≡ lsn) }
    {
        LogRef { log, lsn }
    }
}
