//! Counts the cases of a test, and reports the first wrong one.
use std::alloc::Global;
use std::fmt::Display;
use std::test::Fail;

/// The number of cases that were tried, and the first that was wrong: its number, from 1, and the line of its table.
#[derive(Drop)]
pub struct Cases<'a> {
    tried: u64,
    line: &'a str,
    wrong: u64,
    wrong_line: &'a str,
}

impl<'a> Cases<'a> {
    pub fn new() -> Self {
        Cases {
            tried: 0,
            line: "",
            wrong: 0,
            wrong_line: "",
        }
    }

    /// Names the line of the table of the next cases.
    pub fn of_line(&mut self, line: &'a str) {
        self.line = line;
    }

    /// Counts a case.
    pub fn check(&mut self, is_right: bool) {
        self.tried = self.tried.wrapping_add(1);
        if !is_right && self.wrong == 0 {
            self.wrong = self.tried;
            self.wrong_line = self.line;
        }
    }

    /// Counts a case: a value is printed as this text.
    pub fn check_text<D: Display + Drop>(
        &mut self,
        alloc: Global,
        value: D,
        text: &str,
    ) -> Result<(), Fail> {
        let printed = value.to_string(alloc)?;
        self.check(printed.as_str() == text);
        Ok(())
    }

    /// Returns a failure if no case was tried, or one was wrong.
    pub fn end(&self) -> Result<(), Fail> {
        let (tried, wrong, line) = (self.tried, self.wrong, self.wrong_line);
        if tried > 0 && wrong == 0 {
            return Ok(());
        }
        Err(Fail::new(format_args!("case {wrong} of {tried} is wrong: {line}")))
    }
}
