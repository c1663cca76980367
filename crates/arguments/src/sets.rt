// Page sets in bytes: as arguments, and as answers.
ghost use Rattle.std.specs.Prelude.{◌≡◌, true};
ghost use Rattle.pageset.specs.Sets.{normal};
ghost use Rattle.arguments.specs.Args.{not_aset, set_arg};
ghost use Rattle.arguments.specs.Sets.{early, set_put, cut_put};

use super::Reply;
use layout::SET;
use pageset::{CutAnswer, PageSet, SetAnswer, Window};
use setbytes::{set_form, set_read, set_write};

// A set that is not in normal form.
pub fn not_a_set() -> PageSet
    ensures { result ≡ not_aset }
{
    let none = Window { index: 0, mask: 0 };
    PageSet {
        len: 1,
        windows: [none; 32],
    }
}

// The set that an argument spells; one that is not in normal form where its length or its form is wrong.
pub fn set_arg(b: &[u8]) -> PageSet
    ensures { result ≡ set_arg b.now }
{
    if b.len() != SET {
        return not_a_set();
    }
    if !set_form(b, 0) {
        return not_a_set();
    }
    set_read(b, 0)
}

// Whether a number comes before what is lent is looked at: 1, 2 and 3 do, 22 does not.
pub fn is_early(code: u32) -> bool
    ensures { result ≡ early code }
{
    if code == 0 {
        return false;
    }
    code != 22
}

// A set's answer in bytes: 1, 2 or 3 of the call; 3 for a lent slice of another length; 22; or the set, under `found`.
pub fn put_set(a: SetAnswer, found: u32, out: &mut [u8]) -> Reply
    requires { normal a.set ≡ true }
    ensures { (result, out.new) ≡ set_put found out.old a }
{
    let code = a.code;
    if is_early(code) {
        return Reply { code, found: 0 };
    }
    if out.len() != SET {
        return Reply { code: 3, found: 0 };
    }
    if code != 0 {
        return Reply { code, found: 0 };
    }
    let set = a.set;
    set_write(out, 0, set);
    Reply { code: 0, found }
}

// A cut's answer in bytes: 3 of the call or for a lent slice of another length; or the common pages and those left.
pub fn put_cut(a: CutAnswer, common: &mut [u8], rest: &mut [u8]) -> Reply
    requires { (normal a.common ≡ true) × (normal a.left ≡ true) }
    ensures { (result, (common.new, rest.new)) ≡ cut_put common.old rest.old a }
{
    let code = a.code;
    if code != 0 {
        return Reply { code, found: 0 };
    }
    if common.len() != SET {
        return Reply { code: 3, found: 0 };
    }
    if rest.len() != SET {
        return Reply { code: 3, found: 0 };
    }
    let both = a.common;
    let left = a.left;
    set_write(common, 0, both);
    set_write(rest, 0, left);
    Reply { code: 0, found: 1 }
}
