// Save.
ghost use Rattle.std.specs.Prelude.{◌≡◌};
ghost use Rattle.basics.specs.Answers.{code};
ghost use Rattle.arguments.specs.Replies.{numbered_reply};
ghost use Rattle.savecalls.specs.Saving.{save_on, Leaves};

use arguments::{Reply, replies};
use basics::page_count::PageCount;

// Pages saved on a volume as a new commit of its local log, and the snapshot afterwards: 20, 1, 2, 3, 4, 7, 18, 5, 19.
pub fn sigatuda_save(
    volumes: &[u8],
    commits: &mut [u8],
    checkpoints: &mut [u8],
    index: &mut [u8],
    presence: &mut [u8],
    vid: &[u8; 16],
    snapshot: &[u8],
    count: u32,
    sid: &[u8; 16],
    pages: &[u8],
    out: &mut [u8],
) -> Reply
    ensures value { result ≡ numbered_reply (code (save_on volumes.now commits.old checkpoints.old index.old presence.old vid.now snapshot.now count sid.now pages.now out.old)) }
    ensures leaves { Leaves commits.old checkpoints.old index.old presence.old out.old (save_on volumes.now commits.old checkpoints.old index.old presence.old vid.now snapshot.now count sid.now pages.now out.old) result.code commits.new checkpoints.new index.new presence.new out.new }
{
    let volume = *vid;
    let segment = *sid;
    replies::by_number(savecalls::save(
        volumes,
        commits,
        checkpoints,
        index,
        presence,
        volume,
        snapshot,
        PageCount(count),
        segment,
        pages,
        out,
    ))
}
