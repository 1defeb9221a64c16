//! What a drive came to.
ghost use Rattle.std.specs.Prelude.{◌≡◌, ◌++◌, IfOk, OnOk, decimal, string_bytes};
ghost use Rattle.den_drive.specs.Report.{report_line};

use itoa::Buffer;
use std::alloc::{AllocError, Global};

/// What a drive came to: how many requests it asked, the keys that were held at its end, the last index, and how many
/// bytes were sent.
#[derive(Clone, Copy, Debug, PartialEq, Eq)]
pub struct DriveReport {
    pub requests: u32,
    pub keys: u64,
    pub index: u64,
    pub bytes: u64,
}

// Appends a name and a number in decimal.
fn push_number(line: &mut String, name: &str, number: u64) -> Result<(), AllocError>
    ensures { OnOk result (string_bytes line.new ≡ string_bytes line.old ++ name.now ++ decimal number) }
{
    let mut buffer = Buffer::new();
    line.push_str(name)?;
    line.push_str(buffer.format(number))
}

impl DriveReport {
    /// The report as a line, with its newline.
    pub fn line(&self, alloc: Global) -> Result<String, AllocError>
        ensures { IfOk result (λ line. string_bytes line ≡ report_line self.now.requests self.now.keys self.now.index self.now.bytes) }
    {
        let mut line = String::new(alloc);
        push_number(&mut line, "requests=", self.requests as u64)?;
        push_number(&mut line, " keys=", self.keys)?;
        push_number(&mut line, " index=", self.index)?;
        push_number(&mut line, " bytes=", self.bytes)?;
        line.push_str("\n")?;
        Ok(line)
    }
}
