// Fresh tables.
ghost use Rattle.std.specs.Prelude.{◌≡◌};
ghost use Rattle.rules.specs.Demand.{Exact};
ghost use Rattle.layout.specs.Tables.{commits_in, index_in};
ghost use Rattle.arguments.specs.Replies.{given};
ghost use Rattle.keeping.specs.Stays.{Fresh};

use arguments::Reply;
use boundary::tables::{
    sigatuda_checkpoints_formed, sigatuda_commits_formed, sigatuda_index_formed,
    sigatuda_presence_formed, sigatuda_tags_formed, sigatuda_volumes_formed,
};

// What the checks of the six tables answered.
#[derive(Clone, Copy)]
pub struct Replies {
    pub volumes: Reply,
    pub tags: Reply,
    pub commits: Reply,
    pub checkpoints: Reply,
    pub index: Reply,
    pub presence: Reply,
}

// Fresh tables pass the check behind 20, each, and their index is exact.
pub fn formed(
    volumes: &[u8],
    tags: &[u8],
    commits: &[u8],
    checkpoints: &[u8],
    index: &[u8],
    presence: &[u8],
) -> Replies
    ensures volumes_value { Fresh volumes.now → result.volumes ≡ given }
    ensures tags_value { Fresh tags.now → result.tags ≡ given }
    ensures commits_value { Fresh commits.now → result.commits ≡ given }
    ensures checkpoints_value { Fresh checkpoints.now → result.checkpoints ≡ given }
    ensures index_value { Fresh index.now → result.index ≡ given }
    ensures presence_value { Fresh presence.now → result.presence ≡ given }
    ensures exact { Fresh commits.now → Fresh index.now → Exact (commits_in commits.now) (index_in index.now) }
{
    Replies {
        volumes: sigatuda_volumes_formed(volumes),
        tags: sigatuda_tags_formed(tags),
        commits: sigatuda_commits_formed(commits),
        checkpoints: sigatuda_checkpoints_formed(checkpoints),
        index: sigatuda_index_formed(index),
        presence: sigatuda_presence_formed(presence),
    }
}
