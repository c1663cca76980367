// The calls on volumes: read, exists, delete, and drop of a pending commit.
ghost use Rattle.std.specs.Prelude.{◌≡◌};
ghost use Rattle.basics.specs.Answers.{code};
ghost use Rattle.rules.specs.Reads.{volume_read, volume_exists, volume_delete};
ghost use Rattle.rules.specs.Push.{drop_pending};
ghost use Rattle.layout.specs.Records.{volume_bytes};
ghost use Rattle.layout.specs.Tables.{volumes_in, volumes_ok};
ghost use Rattle.layout.specs.Lent.{lent, after};
ghost use Rattle.arguments.specs.Replies.{numbered_reply, yes_or_no};
ghost use Rattle.tablereplies.specs.Records.{volume_left};

use arguments::Reply;

// The volume of an identifier, in its table form: 20, 3, 4.
#[unsafe(no_mangle)]
pub extern "C" fn sigatuda_volume_read(volumes: &[u8], vid: &[u8; 16], out: &mut [u8]) -> Reply
    ensures { (result, out.new) ≡ volume_left out.old (volumes_ok volumes.now) (volume_read (volumes_in volumes.now) vid.now) }
{
    boundary::volumecall::sigatuda_volume_read(volumes, vid, out)
}

// Whether a volume is stored: 20.
#[unsafe(no_mangle)]
pub extern "C" fn sigatuda_volume_exists(volumes: &[u8], vid: &[u8; 16]) -> Reply
    ensures { result ≡ yes_or_no (lent (volumes_ok volumes.now) (volume_exists (volumes_in volumes.now) vid.now)) }
{
    boundary::volumecall::sigatuda_volume_exists(volumes, vid)
}

// A volume deleted; where there is none, nothing changes: 20.
#[unsafe(no_mangle)]
pub extern "C" fn sigatuda_volume_delete(volumes: &mut [u8], vid: &[u8; 16]) -> Reply
    ensures value { result ≡ numbered_reply (code (lent (volumes_ok volumes.old) (volume_delete (volumes_in volumes.old) vid.now))) }
    ensures volumes_after { volumes.new ≡ after volume_bytes (λ t. t) volumes.old (lent (volumes_ok volumes.old) (volume_delete (volumes_in volumes.old) vid.now)) }
{
    boundary::volumecall::sigatuda_volume_delete(volumes, vid)
}

// A volume's pending commit dropped; where none is pending, nothing changes: 20, 4.
#[unsafe(no_mangle)]
pub extern "C" fn sigatuda_drop(volumes: &mut [u8], vid: &[u8; 16]) -> Reply
    ensures value { result ≡ numbered_reply (code (lent (volumes_ok volumes.old) (drop_pending (volumes_in volumes.old) vid.now))) }
    ensures volumes_after { volumes.new ≡ after volume_bytes (λ t. t) volumes.old (lent (volumes_ok volumes.old) (drop_pending (volumes_in volumes.old) vid.now)) }
{
    boundary::volumecall::sigatuda_drop(volumes, vid)
}
