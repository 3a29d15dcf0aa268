//! The fields of a line, and the numbers in them.
ghost use Rattle.std.specs.Prelude.{◌≡◌, ◌≤◌};

/// The fields of a line, which single spaces divide.
#[derive(Clone, Copy)]
pub struct Fields<'a> {
    /// What is left of the line, or `None` after the last field.
    rest: Option<&'a str>,
}

impl<'a> Fields<'a> {
    /// The fields of a line.
    pub fn of(line: &'a str) -> Fields<'a> {
        Fields { rest: Some(line) }
    }

    /// The next field, or `None` after the last, and where it is empty.
    pub fn next(&mut self) -> Option<&'a str> {
        let rest = self.rest?;
        let (field, others) = match rest.split_once(' ') {
            Some((field, others)) => (field, Some(others)),
            None => (rest, None),
        };
        self.rest = others;
        if field.is_empty() { None } else { Some(field) }
    }

    /// The next field as a hexadecimal number, or `None` where it is no such number.
    pub fn hexadecimal(&mut self) -> Option<u32> {
        hexadecimal(self.next()?)
    }

    /// Whether no field is left.
    pub fn is_empty(&self) -> bool {
        self.rest.is_none()
    }
}

/// A number without a sign, below 2^32, in a base from 2 to 36.
fn number(text: &str, base: u32) -> Option<u32>
    requires { (2 ≤ base) × (base ≤ 36) }
{
    if text.starts_with('+') {
        return None;
    }
    u32::from_str_radix(text, base).ok()
}

/// A decimal number without a sign, below 2^32.
pub fn decimal(text: &str) -> Option<u32> {
    number(text, 10)
}

/// A hexadecimal number without a sign, below 2^32.
pub fn hexadecimal(text: &str) -> Option<u32> {
    number(text, 16)
}
