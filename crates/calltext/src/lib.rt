// The lines that the call list program prints, into lent bytes.
#![tactic(auto)]

ghost use Rattle.std.specs.Prelude.{◌≡◌, cond, ◌+◌, ◌≤◌, ◌<◌, ltb, length, drop};
ghost use Rattle.octets.specs.Bytes.{put};
ghost use Rattle.calltext.specs.Output.{decimal, hex_byte, log_text, lsn_of, output_line};
ghost use Rattle.calltext.specs.Says.{head_says};

// The bytes that a printed line may need, and some to spare.
pub const LINE_ROOM: usize = 96;

// The commit that a line names: the last byte of its log, and its LSN.
#[derive(Clone, Copy)]
pub enum Head {
    Nothing,
    At(u8, u64),
}

// A decimal at the end of 20 bytes, from a place on.
#[derive(Clone, Copy)]
struct Decimal {
    from: usize,
    bytes: [u8; 20],
}

// The digits of a number, without leading zeros.
fn digits(n: u64) -> Decimal
    ensures { (result.from < 20) × (drop result.from result.bytes ≡ decimal n) × (length result.bytes ≡ 20) }
{
    let mut bytes = [0u8; 20];
    let mut at: usize = 20;
    let mut rest = n;
    while 10 <= rest {
        at -= 1;
        bytes[at] = (48 + rest % 10) as u8;
        rest = rest / 10;
    }
    at -= 1;
    bytes[at] = (48 + rest) as u8;
    Decimal { from: at, bytes }
}

// A number's decimal over the bytes at a place; answers the place behind it.
fn put_decimal(out: &mut [u8], at: usize, n: u64) -> usize
    requires { at + 20 ≤ length out.old }
    ensures { (out.new ≡ put at (decimal n) out.old) × (result ≡ at + length (decimal n)) × (length (decimal n) ≤ 20) }
{
    let d = digits(n);
    let from = d.from;
    let bytes = d.bytes;
    octets::store_all(out, at, &bytes[from..20]);
    at + (20 - from)
}

// A digit of lower case hex.
fn hex_byte(d: u8) -> u8
    requires { d < 16 }
    ensures { result ≡ hex_byte d }
{
    if d < 10 {
        return 48 + d;
    }
    87 + d
}

// A head's log over the bytes at a place, `-` where there is none; answers the place behind it.
fn put_log(out: &mut [u8], at: usize, head: Head) -> usize
    requires { at + 2 ≤ length out.old }
    ensures { (out.new ≡ put at (log_text (head_says head)) out.old) × (result ≡ at + length (log_text (head_says head))) × (length (log_text (head_says head)) ≤ 2) }
{
    let Head::At(b, _) = head else {
        octets::store_all(out, at, b"-");
        return at + 1;
    };
    let high = hex_byte(b / 16);
    let low = hex_byte(b % 16);
    let pair = [high, low];
    octets::store_all(out, at, &pair);
    at + 2
}

// A head's LSN, 0 where there is none.
fn lsn_of(head: Head) -> u64
    ensures { result ≡ lsn_of (head_says head) }
{
    match head {
        Head::Nothing => 0,
        Head::At(_, n) => n,
    }
}

// A printed line over the first bytes of `out`; answers how many they are. Where `out` is shorter than LINE_ROOM it stays as found, and the answer is 0.
pub fn write_line(out: &mut [u8], number: u64, code: u32, head: Head) -> usize
    ensures out_after { out.new ≡ cond (ltb (length out.old) 96) out.old (put 0 (output_line number code (head_says head)) out.old) }
    ensures value { result ≡ cond (ltb (length out.old) 96) 0 (length (output_line number code (head_says head))) }
{
    if out.len() < LINE_ROOM {
        return 0;
    }
    octets::store_all(out, 0, b"line=");
    let a = put_decimal(out, 5, number);
    octets::store_all(out, a, b" code=");
    let b = put_decimal(out, a + 6, code as u64);
    octets::store_all(out, b, b" log=");
    let d = put_log(out, b + 5, head);
    octets::store_all(out, d, b" lsn=");
    put_decimal(out, d + 5, lsn_of(head))
}
