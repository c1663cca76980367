// The six tables: whether lent bytes are a table, the one test behind 20.
ghost use Rattle.std.specs.Prelude.{◌≡◌};
ghost use Rattle.layout.specs.Tables.{volumes_ok, tags_ok, commits_ok, checkpoints_ok, index_ok, presence_ok};
ghost use Rattle.boundary.specs.Tables.{formed_reply};

use arguments::Reply;

// 0 for a table, 20 for other bytes.
fn formed_reply(formed: bool) -> Reply
    ensures { result ≡ formed_reply formed }
{
    if formed {
        return Reply { code: 0, found: 1 };
    }
    Reply { code: 20, found: 0 }
}

// Whether bytes are a table of volumes: 20.
pub fn sigatuda_volumes_formed(volumes: &[u8]) -> Reply
    ensures { result ≡ formed_reply (volumes_ok volumes.now) }
{
    formed_reply(volumes::volumes_formed(volumes))
}

// Whether bytes are a table of tags: 20.
pub fn sigatuda_tags_formed(tags: &[u8]) -> Reply
    ensures { result ≡ formed_reply (tags_ok tags.now) }
{
    formed_reply(tags::tags_formed(tags))
}

// Whether bytes are a table of commits: 20.
pub fn sigatuda_commits_formed(commits: &[u8]) -> Reply
    ensures { result ≡ formed_reply (commits_ok commits.now) }
{
    formed_reply(commits::commits_formed(commits))
}

// Whether bytes are a table of checkpoints: 20.
pub fn sigatuda_checkpoints_formed(checkpoints: &[u8]) -> Reply
    ensures { result ≡ formed_reply (checkpoints_ok checkpoints.now) }
{
    formed_reply(entries::checkpoints_formed(checkpoints))
}

// Whether bytes are a page index: 20.
pub fn sigatuda_index_formed(index: &[u8]) -> Reply
    ensures { result ≡ formed_reply (index_ok index.now) }
{
    formed_reply(entries::index_formed(index))
}

// Whether bytes are a table of present pages: 20.
pub fn sigatuda_presence_formed(presence: &[u8]) -> Reply
    ensures { result ≡ formed_reply (presence_ok presence.now) }
{
    formed_reply(entries::presence_formed(presence))
}
