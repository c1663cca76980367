// The fields of a call list line, word by word: a key with its `=`, and a value.
ghost use Rattle.std.specs.Prelude.{◌≡◌, ◌<◌, ◌≤◌, true, false, length};
ghost use Rattle.basics.specs.Answers.{done};
ghost use Rattle.callline.specs.Values.{identifier_of, decimal_of, pages_of};
ghost use Rattle.callline.specs.Lines.{field};
ghost use Rattle.callline.specs.Says.{both, read_on, is_over, InForm, field_says, place_says, pages_says};

use crate::values::Number;
use crate::{texts, values};

// Where the last word that was read ends; or that the line is not in the form.
#[derive(Clone, Copy)]
pub struct Cursor {
    pub good: bool,
    pub end: usize,
}

// A number, and where its word ends.
#[derive(Clone, Copy)]
pub struct Field {
    pub value: u64,
    pub next: Cursor,
}

// Where the text of a value starts and ends; or that the line is not in the form.
#[derive(Clone, Copy)]
pub struct Place {
    pub good: bool,
    pub from: usize,
    pub to: usize,
}

// No place: the line is not in the form.
fn nowhere() -> Place
    ensures { result ≡ record { good = false; from = 0; to = 0 } }
{
    Place {
        good: false,
        from: 0,
        to: 0,
    }
}

// No number: the line is not in the form.
fn no_field() -> Field
    ensures { result ≡ record { value = 0; next = record { good = false; end = 0 } } }
{
    Field {
        value: 0,
        next: Cursor {
            good: false,
            end: 0,
        },
    }
}

// Where the value of the next word stands, if that word begins with the key.
pub fn value_place(line: &[u8], c: Cursor, key: &[u8]) -> Place
    ensures result_value { place_says line.now result ≡ read_on line.now c (field key.now done both) }
    ensures from_le_to { (result.from ≤ result.to) × (result.to ≤ length line.now) }
{
    if !c.good {
        return nowhere();
    }
    let end = c.end;
    if line.len() <= end {
        return nowhere();
    }
    let at = end + 1;
    let to = texts::piece_end(line, at, 32);
    if !texts::starts_with(&line[at..to], key) {
        return nowhere();
    }
    Place {
        good: true,
        from: at + key.len(),
        to,
    }
}

// The identifier that the next word gives to the key.
pub fn identifier(line: &[u8], c: Cursor, key: &[u8]) -> Field
    ensures result_value { field_says line.now result ≡ read_on line.now c (field key.now identifier_of both) }
    ensures value_bound { result.value < 256 }
{
    let p = value_place(line, c, key);
    if !p.good {
        return no_field();
    }
    let from = p.from;
    let to = p.to;
    let Number::Is(value) = values::identifier(&line[from..to]) else {
        return no_field();
    };
    let next = Cursor {
        good: true,
        end: to,
    };
    Field { value, next }
}

// The decimal up to the limit that the next word gives to the key.
pub fn decimal(line: &[u8], c: Cursor, key: &[u8], limit: u64) -> Field
    ensures result_value { field_says line.now result ≡ read_on line.now c (field key.now (decimal_of limit) both) }
    ensures value_le_limit { result.value ≤ limit }
{
    let p = value_place(line, c, key);
    if !p.good {
        return no_field();
    }
    let from = p.from;
    let to = p.to;
    let Number::Is(value) = values::decimal(&line[from..to], limit) else {
        return no_field();
    };
    let next = Cursor {
        good: true,
        end: to,
    };
    Field { value, next }
}

// Where the pages stand that the next word gives to the key.
pub fn pages(line: &[u8], c: Cursor, key: &[u8]) -> Place
    ensures result_value { pages_says line.now result ≡ read_on line.now c (field key.now pages_of both) }
    ensures in_form { result.good ≡ true → InForm line.now result.from result.to }
{
    let p = value_place(line, c, key);
    if !p.good {
        return nowhere();
    }
    let from = p.from;
    let to = p.to;
    if !values::is_pages(&line[from..to]) {
        return nowhere();
    }
    p
}

// Whether no word is left.
pub fn is_over(line: &[u8], c: Cursor) -> bool
    ensures { result ≡ is_over line.now c }
{
    if !c.good {
        return false;
    }
    line.len() <= c.end
}
