//! Publishes and compactions that are strewn into a script.

use std::alloc::{AllocError, Global};

/// A script with these lines before each command.
pub fn strewn(alloc: Global, script: &[u8], lines: &str) -> Result<Vec<u8>, AllocError> {
    let mut longer = Vec::new(alloc);
    for line in script.split_inclusive(|byte| *byte == b'\n') {
        if begins_command(line) {
            longer.extend_from_slice(lines.as_bytes())?;
        }
        longer.extend_from_slice(line)?;
    }
    Ok(longer)
}

/// Whether a command begins in a line of a script without a fault: the line isn't empty, a comment, an event or an end.
fn begins_command(line: &[u8]) -> bool {
    let text = line.trim_ascii();
    let others = ["#", "+", "raw ", "end"];
    !text.is_empty() && !others.iter().any(|word| text.starts_with(word.as_bytes()))
}

/// An answer without the lines that publishes and compactions print.
pub fn without_reports(alloc: Global, answer: &[u8]) -> Result<Vec<u8>, AllocError> {
    let reports = ["published\n", "compacted\n"];
    let mut shorter = Vec::new(alloc);
    for line in answer.split_inclusive(|byte| *byte == b'\n') {
        if !reports.iter().any(|report| line == report.as_bytes()) {
            shorter.extend_from_slice(line)?;
        }
    }
    Ok(shorter)
}
