// Result lists in lent bytes: what is copied into one, and the check of the snapshot that many are asked of. The definitions and laws of lists hold for every
// byte form of an entry.
#![tactic(auto)]

ghost use Rattle.std.specs.Prelude.{◌≡◌, ◌+◌, ◌≤◌, length};
ghost use Rattle.octets.specs.Bytes.{part, put};
ghost use Rattle.basics.specs.Answers.{code};
ghost use Rattle.basics.specs.Refusals.{code_of};
ghost use Rattle.resultlists.specs.Snapshots.{snapshot_given};

use arguments::snapshots::{snapshot_arg, snapshot_ok};
use basics::refusal::Refusal;

// The n bytes of t at a place over those of a list at another.
pub fn copy(list: &mut [u8], at: usize, t: &[u8], from: usize, n: usize)
    requires { (at + n ≤ length list.old) × (from + n ≤ length t.now) }
    ensures { list.new ≡ put at (part from n t.now) list.old }
{
    let end = from + n;
    octets::store_all(list, at, &t[from..end])
}

// What is wrong with a snapshot in bytes: 1 for an LSN 0, 2 for a range that starts above its end, 3 for another size or form.
pub fn snapshot_given(b: &[u8]) -> Result<(), Refusal>
    ensures { code_of result ≡ code (snapshot_given b.now) }
{
    let s = snapshot_arg(b);
    if !s.has_lsns() {
        return Err(Refusal::Zero);
    }
    if !s.is_ordered() {
        return Err(Refusal::Reversed);
    }
    if !snapshot_ok(b) {
        return Err(Refusal::Form);
    }
    Ok(())
}
