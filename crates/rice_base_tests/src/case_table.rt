//! Tables of cases as text: a line for each case, with `|` between its columns.
use rice_samples::{Setting, SettingFault};
use std::alloc::Global;
use std::test::Fail;

/// The columns of a line.
#[derive(Drop)]
pub struct Columns<'a> {
    rest: &'a str,
}

impl<'a> Columns<'a> {
    /// Returns the columns of `line`.
    pub fn of(line: &'a str) -> Self {
        Columns { rest: line }
    }

    /// Returns the next column, without the blanks around it.
    pub fn next(&mut self) -> &'a str {
        match self.rest.split_once('|') {
            Some((column, rest)) => {
                self.rest = rest;
                column.trim()
            }
            None => {
                let column = self.rest;
                self.rest = "";
                column.trim()
            }
        }
    }

    /// Returns the number in the next column.
    pub fn next_u32(&mut self) -> Result<u32, Fail> {
        Ok(self.next().parse::<u32>()?)
    }

    pub fn next_u64(&mut self) -> Result<u64, Fail> {
        Ok(self.next().parse::<u64>()?)
    }

    pub fn next_usize(&mut self) -> Result<usize, Fail> {
        Ok(self.next().parse::<usize>()?)
    }

    pub fn next_i64(&mut self) -> Result<i64, Fail> {
        Ok(self.next().parse::<i64>()?)
    }
}

/// Returns the setting of options such as `n16 j32 r64 s`, those of the command line without dashes: `s` signed, `m` most significant byte
/// first, `3` three bytes, `N` not preprocessed, `p` padded. `any` takes a block of any even size.
pub fn setting_of(options: &str) -> Result<Setting, Fail> {
    Ok(answer_to(options)??)
}

/// Returns what `Setting::new` returns for options such as those of `setting_of`, or with `any` `Setting::with_any_block`.
pub fn answer_to(options: &str) -> Result<Result<Setting, SettingFault>, Fail> {
    let mut bits = 8;
    let mut block = 8;
    let mut interval = 2;
    let mut signed = false;
    let mut msb = false;
    let mut three = false;
    let mut preprocess = true;
    let mut pad = false;
    let mut any = false;
    for option in options.split_whitespace() {
        match option {
            "s" => signed = true,
            "m" => msb = true,
            "3" => three = true,
            "N" => preprocess = false,
            "p" => pad = true,
            "any" => any = true,
            _ => {
                if let Some(number) = option.strip_prefix('n') {
                    bits = number.parse::<u32>()?;
                } else if let Some(number) = option.strip_prefix('j') {
                    block = number.parse::<u32>()?;
                } else if let Some(number) = option.strip_prefix('r') {
                    interval = number.parse::<u32>()?;
                } else {
                    return Err(Fail::new("no option"));
                }
            }
        }
    }
    if any {
        return Ok(Setting::with_any_block(
            bits, block, interval, signed, msb, three, preprocess, pad,
        ));
    }
    Ok(Setting::new(bits, block, interval, signed, msb, three, preprocess, pad))
}

/// Returns the number of a column, or `None` if it is empty.
pub fn number_of(text: &str) -> Result<Option<u64>, Fail> {
    if text.is_empty() {
        return Ok(None);
    }
    Ok(Some(text.parse::<u64>()?))
}

/// Returns the bytes of words such as `00FF` in hexadecimal, and `05*8`, which is eight times `05`.
pub fn bytes_of(text: &str, alloc: Global) -> Result<Vec<u8>, Fail> {
    let mut bytes = Vec::new(alloc);
    for word in text.split_whitespace() {
        let (digits, times) = word.split_once('*').unwrap_or((word, "1"));
        for _ in 0..times.parse::<u32>()? {
            push_word(digits, &mut bytes)?;
        }
    }
    Ok(bytes)
}

/// Returns the samples of words such as `-3`, and `5*8`, which is eight times `5`.
pub fn samples_of(text: &str, alloc: Global) -> Result<Vec<i64>, Fail> {
    let mut samples = Vec::new(alloc);
    for word in text.split_whitespace() {
        let (number, times) = word.split_once('*').unwrap_or((word, "1"));
        let sample = number.parse::<i64>()?;
        for _ in 0..times.parse::<u32>()? {
            samples.push(sample)?;
        }
    }
    Ok(samples)
}

/// Adds the bytes of hexadecimal digits.
fn push_word(digits: &str, bytes: &mut Vec<u8>) -> Result<(), Fail> {
    let mut high: Option<u8> = None;
    for digit in digits.chars() {
        let Some(value) = digit.to_digit(16) else {
            return Err(Fail::new("no hexadecimal digit"));
        };
        let value = u8::try_from(value)?;
        match high {
            None => high = Some(value),
            Some(first) => {
                bytes.push(first.wrapping_mul(16).wrapping_add(value))?;
                high = None;
            }
        }
    }
    Ok(())
}
