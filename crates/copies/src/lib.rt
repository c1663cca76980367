// Copies of a path's commits in a new local log: a copy's bytes, and all of them written. N commits in path order become N down to 1. `room` counts what they add.
#![tactic(auto)]

pub mod room;

ghost use Rattle.std.specs.Prelude.{◌≡◌, ◌<◌, true, length};
ghost use Rattle.rules.specs.Lists.{all};
ghost use Rattle.rules.specs.Write.{write_all, logs_fit};
ghost use Rattle.rules.specs.Walk.{path_commits};
ghost use Rattle.rules.specs.Copies.{renumbered};
ghost use Rattle.layout.specs.Records.{commit_bytes, checkpoint_bytes, entry_bytes};
ghost use Rattle.layout.specs.Tables.{commits_in, commits_ok, checkpoints_ok, index_ok, laid_over};
ghost use Rattle.table.specs.Table.{count_of};
ghost use Rattle.commits.specs.Places.{commit_at};
ghost use Rattle.writecalls.specs.Written.{IsCommit, commit_in, logs_in};
ghost use Rattle.paths.specs.Left.{other_log, is_left, left_says};
ghost use Rattle.copies.specs.Copied.{renumber};

use basics::id::LogId;
use paths::{Left, next_commit};
use writecalls::write_stored;

// The bytes of a stored commit's copy under another log and LSN.
fn copied_row(commits: &[u8], row: usize, log: LogId, lsn: u64) -> [u8; 722]
    requires { (commits_ok commits.now ≡ true) × (row < count_of commits.now) × (0 < lsn) }
    ensures { IsCommit result × (commit_in result ≡ renumber log lsn (commit_at commits.now row)) }
{
    let mut c = [0u8; 722];
    octets::load_all(commits, commits::row(commits, row), &mut c);
    let key = layout::log_key(log, lsn);
    octets::store_all(&mut c, 0, &key);
    c
}

// Copies of the n commits left written to a log that no range left names; the tables have room for all that they add.
pub fn store_copies(
    commits: &mut [u8],
    checkpoints: &mut [u8],
    index: &mut [u8],
    left: Left,
    n: usize,
    log: LogId,
)
    requires commits_value { (commits_ok commits.old ≡ true) × (checkpoints_ok checkpoints.old ≡ true) × (index_ok index.old ≡ true) }
    requires is_left { is_left left × (n ≡ length (path_commits (commits_in commits.old) (left_says left))) × (all (other_log log) (left_says left) ≡ true) }
    requires left_value { logs_fit (write_all (logs_in commits.old checkpoints.old index.old) (renumbered log (path_commits (commits_in commits.old) (left_says left)))) ≡ true }
    ensures commits_after { commits.new ≡ laid_over commit_bytes (write_all (logs_in commits.old checkpoints.old index.old) (renumbered log (path_commits (commits_in commits.old) (left_says left)))).commits commits.old }
    ensures checkpoints_after { checkpoints.new ≡ laid_over checkpoint_bytes (write_all (logs_in commits.old checkpoints.old index.old) (renumbered log (path_commits (commits_in commits.old) (left_says left)))).checkpoints checkpoints.old }
    ensures index_after { index.new ≡ laid_over entry_bytes (write_all (logs_in commits.old checkpoints.old index.old) (renumbered log (path_commits (commits_in commits.old) (left_says left)))).index index.old }
{
    let mut rest = left;
    for k in (0..n).rev() {
        let met = next_commit(commits, rest);
        let c = copied_row(commits, met.row, log, k as u64 + 1);
        write_stored(commits, checkpoints, index, &c);
        rest = met.left;
    }
}
