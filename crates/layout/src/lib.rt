// The byte forms: every size of the records stands here (docs/TABLES.md shows them), the one key that two tables share is written here, and specs/ says what the bytes mean.
#![tactic(auto)]

ghost use Rattle.std.specs.Prelude.{◌≡◌, ◌+◌, ◌≤◌, length};
ghost use Rattle.octets.specs.Bytes.{put};
ghost use Rattle.layout.specs.Records.{log_lsn_bytes};

use basics::id::LogId;
use octets::{store_id, store8, store64};

// A table's records, and the key in front of each.
pub const VOLUME: usize = 117;

pub const VOLUME_KEY: usize = 17;

pub const TAG: usize = 50;

pub const TAG_KEY: usize = 34;

pub const COMMIT: usize = 722;

pub const COMMIT_KEY: usize = 25;

pub const CHECKPOINT: usize = 25;

pub const ENTRY: usize = 29;

pub const PRESENT: usize = 21;

// Values.
pub const SET: usize = 385;

pub const SEGMENT: usize = 594;

pub const RANGE: usize = 417;

pub const SNAPSHOT: usize = 262;

// A log and an LSN over the 25 bytes at a place: a reserved byte, the log, and the LSN as its complement.
pub fn key_write(s: &mut [u8], at: usize, log: LogId, lsn: u64)
    requires { at + 25 ≤ length s.old }
    ensures { s.new ≡ put at (log_lsn_bytes.spell (log, lsn)) s.old }
{
    store8(s, at, 0);
    store_id(s, at + 1, log);
    store64(s, at + 17, 18446744073709551615 - lsn);
}

// The key of a log's commit, or of its checkpoint, at an LSN.
pub fn log_key(log: LogId, lsn: u64) -> [u8; 25]
    ensures { result ≡ log_lsn_bytes.spell (log, lsn) }
{
    let mut key = [0u8; 25];
    key_write(&mut key, 0, log, lsn);
    key
}
