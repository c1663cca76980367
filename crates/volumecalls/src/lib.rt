// The calls on volumes alone: read, exists, delete, and drop of a pending commit. Each answers on every input, 20 first.
#![tactic(auto)]

ghost use Rattle.std.specs.Prelude.{◌≡◌};
ghost use Rattle.basics.specs.Answers.{code};
ghost use Rattle.basics.specs.Refusals.{code_of};
ghost use Rattle.pagecalls.specs.Says.{yes_says};
ghost use Rattle.rules.specs.Reads.{volume_read, volume_exists, volume_delete};
ghost use Rattle.rules.specs.Push.{drop_pending};
ghost use Rattle.layout.specs.Records.{volume_bytes};
ghost use Rattle.layout.specs.Tables.{volumes_in, volumes_ok};
ghost use Rattle.layout.specs.Lent.{lent, after};
ghost use Rattle.volumecalls.specs.Says.{read_says};

use basics::id::VolumeId;
use basics::refusal::Refusal;
use volume::volume::Volume;
use volumes::{find_volume, remove_volume, store_volume, volume_at, volumes_formed};

// The volume of an identifier: 20, 4.
pub fn volume_read(volumes: &[u8], vid: VolumeId) -> Result<Volume, Refusal>
    ensures { read_says result ≡ lent (volumes_ok volumes.now) (volume_read (volumes_in volumes.now) vid) }
{
    if !volumes_formed(volumes) {
        return Err(Refusal::TableForm);
    }
    let Ok(i) = find_volume(volumes, vid) else {
        return Err(Refusal::NoVolume);
    };
    Ok(volume_at(volumes, i))
}

// Whether a volume is stored: 20.
pub fn volume_exists(volumes: &[u8], vid: VolumeId) -> Result<bool, Refusal>
    ensures { yes_says result ≡ lent (volumes_ok volumes.now) (volume_exists (volumes_in volumes.now) vid) }
{
    if !volumes_formed(volumes) {
        return Err(Refusal::TableForm);
    }
    match find_volume(volumes, vid) {
        Ok(_) => Ok(true),
        Err(_) => Ok(false),
    }
}

// A volume deleted; where there is none, nothing is: 20.
pub fn volume_delete(volumes: &mut [u8], vid: VolumeId) -> Result<(), Refusal>
    ensures value { code_of result ≡ code (lent (volumes_ok volumes.old) (volume_delete (volumes_in volumes.old) vid)) }
    ensures volumes_after { volumes.new ≡ after volume_bytes (λ t. t) volumes.old (lent (volumes_ok volumes.old) (volume_delete (volumes_in volumes.old) vid)) }
{
    if !volumes_formed(volumes) {
        return Err(Refusal::TableForm);
    }
    remove_volume(volumes, vid);
    Ok(())
}

// A volume's pending commit dropped; where none is pending, nothing is: 20, 4.
pub fn drop_pending(volumes: &mut [u8], vid: VolumeId) -> Result<(), Refusal>
    ensures value { code_of result ≡ code (lent (volumes_ok volumes.old) (drop_pending (volumes_in volumes.old) vid)) }
    ensures volumes_after { volumes.new ≡ after volume_bytes (λ t. t) volumes.old (lent (volumes_ok volumes.old) (drop_pending (volumes_in volumes.old) vid)) }
{
    if !volumes_formed(volumes) {
        return Err(Refusal::TableForm);
    }
    let Ok(i) = find_volume(volumes, vid) else {
        return Err(Refusal::NoVolume);
    };
    let v = volume_at(volumes, i);
    store_volume(volumes, i, v.with_pending_commit(None));
    Ok(())
}
