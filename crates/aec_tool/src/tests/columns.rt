//! Lines of a table, with `|` between their columns.
use std::alloc::Global;
use std::test::Fail;

/// The columns of a line.
#[derive(Drop)]
pub struct Columns<'a> {
    rest: &'a str,
}

impl<'a> Columns<'a> {
    pub fn of(line: &'a str) -> Self {
        Columns { rest: line }
    }

    /// Returns the next column, without the blanks around it.
    pub fn next(&mut self) -> &'a str {
        let (column, rest) = self.rest.split_once('|').unwrap_or((self.rest, ""));
        self.rest = rest;
        column.trim()
    }
}

/// Returns the bytes of hexadecimal digits, where `05*8` is eight times `05`, and `00-ff*4` four times both.
pub fn bytes_of(text: &str, alloc: Global) -> Result<Vec<u8>, Fail> {
    let mut bytes = Vec::new(alloc);
    for word in text.split_whitespace() {
        let (group, times) = word.split_once('*').unwrap_or((word, "1"));
        for _ in 0..times.parse::<u32>()? {
            push_group(group, &mut bytes)?;
        }
    }
    Ok(bytes)
}

fn push_group(group: &str, bytes: &mut Vec<u8>) -> Result<(), Fail> {
    for digits in group.split('-') {
        bytes.push(u8::from_str_radix(digits, 16)?)?;
    }
    Ok(())
}
