// Reads of commits.
ghost use Rattle.refusals.specs.Refusals.{AsFound};

use arguments::Reply;
use boundary::commitcall::{
    sigatuda_commit_read, sigatuda_latest_commit, sigatuda_latest_lsn, sigatuda_page_count,
};

// The log's commit at an LSN: refused, it leaves the place of the answer as found.
pub fn commit_read(commits: &[u8], log: &[u8; 16], lsn: u64, out: &mut [u8]) -> Reply
    ensures { AsFound result out.old out.new }
{
    sigatuda_commit_read(commits, log, lsn, out)
}

// The log's latest commit: refused, it leaves the place of the answer as found.
pub fn latest_commit(commits: &[u8], log: &[u8; 16], out: &mut [u8]) -> Reply
    ensures { AsFound result out.old out.new }
{
    sigatuda_latest_commit(commits, log, out)
}

// The LSN of the log's latest commit: refused, it leaves the place of the answer as found.
pub fn latest_lsn(commits: &[u8], log: &[u8; 16], lsn: &mut u64) -> Reply
    ensures { AsFound result lsn.old lsn.new }
{
    sigatuda_latest_lsn(commits, log, lsn)
}

// The page count of the log's commit at an LSN: refused, it leaves the place of the answer as found.
pub fn page_count(commits: &[u8], log: &[u8; 16], lsn: u64, count: &mut u32) -> Reply
    ensures { AsFound result count.old count.new }
{
    sigatuda_page_count(commits, log, lsn, count)
}
