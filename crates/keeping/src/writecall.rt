// Writing a commit.
ghost use Rattle.rules.specs.Calls.{writing};
ghost use Rattle.writecalls.specs.Written.{commit_in, logs_in};
ghost use Rattle.keeping.specs.Frame.{Keeps};
ghost use Rattle.keeping.specs.Stays.{LogsStayFormed, StaysExactWhile};
ghost use Rattle.keeping.specs.Holding.{logs_alone};

use arguments::Reply;
use boundary::writecall::sigatuda_write_commit;

// Writing a commit; the index stays exact while the commit that it replaces has no page that it lacks.
pub fn write_commit(
    commits: &mut [u8],
    checkpoints: &mut [u8],
    index: &mut [u8],
    commit: &[u8],
) -> Reply
    ensures keeps { Keeps (logs_alone (logs_in commits.old checkpoints.old index.old)) (writing (commit_in commit.now)) (logs_alone (logs_in commits.new checkpoints.new index.new)) }
    ensures logs_stay_formed { LogsStayFormed commits.old checkpoints.old index.old commits.new checkpoints.new index.new }
    ensures stays_exact_while { StaysExactWhile commits.old index.old commits.new index.new }
{
    sigatuda_write_commit(commits, checkpoints, index, commit)
}
