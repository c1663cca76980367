// Writing a commit to the three tables of the logs.
ghost use Rattle.std.specs.Prelude.{◌≡◌};
ghost use Rattle.basics.specs.Answers.{code};
ghost use Rattle.rules.specs.Write.{Logs};
ghost use Rattle.layout.specs.Records.{checkpoint_bytes, entry_bytes, commit_bytes};
ghost use Rattle.layout.specs.Lent.{lent, after};
ghost use Rattle.arguments.specs.Replies.{numbered_reply};
ghost use Rattle.writecalls.specs.Written.{logs_in, logs_ok, write_in};

use arguments::Reply;

// A commit written, all or nothing: 20, 3 for another number of bytes, 1, 3, 19.
#[unsafe(no_mangle)]
pub extern "C" fn sigatuda_write_commit(
    commits: &mut [u8],
    checkpoints: &mut [u8],
    index: &mut [u8],
    commit: &[u8],
) -> Reply
    ensures value { result ≡ numbered_reply (code (lent (logs_ok commits.old checkpoints.old index.old) (write_in (logs_in commits.old checkpoints.old index.old) commit.now))) }
    ensures commits_after { commits.new ≡ after commit_bytes (λ (g : Logs). g.commits) commits.old (lent (logs_ok commits.old checkpoints.old index.old) (write_in (logs_in commits.old checkpoints.old index.old) commit.now)) }
    ensures checkpoints_after { checkpoints.new ≡ after checkpoint_bytes (λ (g : Logs). g.checkpoints) checkpoints.old (lent (logs_ok commits.old checkpoints.old index.old) (write_in (logs_in commits.old checkpoints.old index.old) commit.now)) }
    ensures index_after { index.new ≡ after entry_bytes (λ (g : Logs). g.index) index.old (lent (logs_ok commits.old checkpoints.old index.old) (write_in (logs_in commits.old checkpoints.old index.old) commit.now)) }
{
    boundary::writecall::sigatuda_write_commit(commits, checkpoints, index, commit)
}
