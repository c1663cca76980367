// The four slots that hold snapshots, 263 bytes each: a byte that is 0 while the slot is unset, and a snapshot.
ghost use Rattle.std.specs.Prelude.{◌≡◌, ◌≤◌, true, length};
ghost use Rattle.volume.specs.Snapshots.{snapshot_says, in_form};
ghost use Rattle.callvalues.specs.Slots.{is_set, held as held_in, slot_set};

use snapshotbytes::snapshot_write;
use volume::snapshot::Snapshot;

// The bytes of a slot.
pub const SLOT: usize = 263;

// The bytes of all slots.
pub const SLOTS: usize = 1052;

// Whether a slot holds a snapshot.
pub fn is_set(slots: &[u8], slot: u8) -> bool
    requires { (slot ≤ 3) × (length slots.now ≡ 1052) }
    ensures { result ≡ is_set slots.now slot }
{
    let at = slot as usize * SLOT;
    slots[at] != 0
}

// The snapshot in a slot.
pub fn held(slots: &[u8], slot: u8) -> [u8; 262]
    requires { (slot ≤ 3) × (length slots.now ≡ 1052) }
    ensures { result ≡ held_in slots.now slot }
{
    let mut snapshot = [0u8; 262];
    octets::load_all(slots, slot as usize * SLOT + 1, &mut snapshot);
    snapshot
}

// A slot set to a snapshot.
pub fn put(slots: &mut [u8], slot: u8, s: Snapshot)
    requires { (slot ≤ 3) × (length slots.old ≡ 1052) × (in_form s ≡ true) }
    ensures { slots.new ≡ slot_set slot (snapshot_says s) slots.old }
{
    let at = slot as usize * SLOT;
    octets::store8(slots, at, 1);
    snapshot_write(slots, at + 1, s);
}
