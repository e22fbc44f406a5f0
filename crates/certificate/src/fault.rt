//! Why bytes aren't read as a certificate.
use std::error::Error;
use std::fmt;

/// Why bytes aren't read as a certificate.
#[derive(Clone, Copy, Debug, PartialEq, Eq, Drop)]
pub enum CertText {
    /// The bytes are a text of no certificate: `line` is the number, from 1 on, of the first line that no text has after the
    /// lines before it. Where no whole line is such a line, it is the number of the line after the last whole line.
    Departs { line: u64 },
    /// No memory was left.
    NoMemory,
}

impl fmt::Display for CertText {
    ghost use Rattle.std.specs.Prelude.{Some};
    ghost use Rattle.certificate.specs.FaultText.{cert_fault_text};

    ghost output = { λ e. Some (cert_fault_text e) };

    /// Writes the number of the line.
    fn fmt<W: fmt::Write>(&self, f: &mut fmt::Formatter<W>) -> fmt::Result {
        match self {
            CertText::Departs { line } => write!(f, "{line}"),
            CertText::NoMemory => f.write_str("no memory"),
        }
    }
}

impl Error for CertText {}
