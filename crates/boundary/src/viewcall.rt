// What a reader sees of a volume: its snapshot, and whether a snapshot is the latest.
ghost use Rattle.std.specs.Prelude.{◌≡◌, ◌&&◌};
ghost use Rattle.rules.specs.Snapshots.{snapshot as snapshot_rule};
ghost use Rattle.layout.specs.Tables.{volumes_in, volumes_ok, commits_in, commits_ok};
ghost use Rattle.layout.specs.Values.{snapshot_bytes};
ghost use Rattle.layout.specs.Lent.{lent};
ghost use Rattle.arguments.specs.Replies.{value, yes_or_no, placed};
ghost use Rattle.viewargs.specs.Views.{latest_in};

use arguments::{Reply, replies};

// The snapshot of a volume: 20, 3 for a lent slice of another length, 4.
pub fn sigatuda_snapshot(volumes: &[u8], commits: &[u8], vid: &[u8; 16], out: &mut [u8]) -> Reply
    ensures { (result, out.new) ≡ value snapshot_bytes.spell out.old (lent (volumes_ok volumes.now && commits_ok commits.now) (placed snapshot_bytes.size out.old (snapshot_rule (volumes_in volumes.now) (commits_in commits.now) vid.now))) }
{
    viewargs::snapshot(volumes, commits, *vid, out)
}

// Whether a snapshot is the latest of a volume: 20, 1, 2, 3, 4.
pub fn sigatuda_latest_check(
    volumes: &[u8],
    commits: &[u8],
    vid: &[u8; 16],
    snapshot: &[u8],
) -> Reply
    ensures { result ≡ yes_or_no (lent (volumes_ok volumes.now && commits_ok commits.now) (latest_in (volumes_in volumes.now) (commits_in commits.now) vid.now snapshot.now)) }
{
    replies::yes_or_no(viewargs::latest_check(volumes, commits, *vid, snapshot))
}
