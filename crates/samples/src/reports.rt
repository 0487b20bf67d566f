// Answers of writing as numbers: those of the refusal, or 0, 0 and the number of bytes.
use faults::{Fault, Report};

pub fn reported(answer: Result<usize, Fault>) -> (u8, u8, usize) {
    match answer {
        Ok(bytes) => (0, 0, bytes),
        Err(fault) => {
            let report = Report::from(fault);
            (report.number, report.layer, report.place)
        }
    }
}
