//! The closing text of each error.
use crate::boards::{Call, shows};
use bv_run::Report;
use std::test::Fail;

/// An error, and what is written at its end at the lines 0 and 65,279.
struct Row(u16, &'static [u8], &'static [u8]);

#[rattlefmt::skip]
static ROWS: [Row; 29] = [
    Row(0, b"\n\rSTOP at line 0\n\r", b"\n\rSTOP at line 65279\n\r"),
    Row(1, b"\n\rUnpredictable instruction at line 0\n\r", b"\n\rUnpredictable instruction at line 65279\n\r"),
    Row(2, b"\n\rBad immediate constant at line 0\n\r", b"\n\rBad immediate constant at line 65279\n\r"),
    Row(3, b"\n\rBad register at line 0\n\r", b"\n\rBad register at line 65279\n\r"),
    Row(6, b"\n\rType mismatch at line 0\n\r", b"\n\rType mismatch at line 65279\n\r"),
    Row(7, b"\n\rNot in a function at line 0\n\r", b"\n\rNot in a function at line 65279\n\r"),
    Row(10, b"\n\rBad DIM at line 0\n\r", b"\n\rBad DIM at line 65279\n\r"),
    Row(11, b"\n\rNo room for this dimension at line 0\n\r", b"\n\rNo room for this dimension at line 65279\n\r"),
    Row(12, b"\n\rNot in a call at line 0\n\r", b"\n\rNot in a call at line 65279\n\r"),
    Row(13, b"\n\rNot in a procedure at line 0\n\r", b"\n\rNot in a procedure at line 65279\n\r"),
    Row(14, b"\n\rUndefined array at line 0\n\r", b"\n\rUndefined array at line 65279\n\r"),
    Row(15, b"\n\rSubscript out of range at line 0\n\r", b"\n\rSubscript out of range at line 65279\n\r"),
    Row(18, b"\n\rDivision by zero at line 0\n\r", b"\n\rDivision by zero at line 65279\n\r"),
    Row(19, b"\n\rString too long at line 0\n\r", b"\n\rString too long at line 65279\n\r"),
    Row(20, b"\n\rNumber too big at line 0\n\r", b"\n\rNumber too big at line 65279\n\r"),
    Row(26, b"\n\rUnknown or missing variable at line 0\n\r", b"\n\rUnknown or missing variable at line 65279\n\r"),
    Row(29, b"\n\rNo such function or procedure at line 0\n\r", b"\n\rNo such function or procedure at line 65279\n\r"),
    Row(31, b"\n\rWrong number of arguments at line 0\n\r", b"\n\rWrong number of arguments at line 65279\n\r"),
    Row(32, b"\n\rNo FOR at line 0\n\r", b"\n\rNo FOR at line 65279\n\r"),
    Row(33, b"\n\rCan't match FOR at line 0\n\r", b"\n\rCan't match FOR at line 65279\n\r"),
    Row(37, b"\n\rNo room for call or loop at line 0\n\r", b"\n\rNo room for call or loop at line 65279\n\r"),
    Row(38, b"\n\rNot in a subroutine at line 0\n\r", b"\n\rNot in a subroutine at line 65279\n\r"),
    Row(40, b"\n\rON range at line 0\n\r", b"\n\rON range at line 65279\n\r"),
    Row(41, b"\n\rNo such line at line 0\n\r", b"\n\rNo such line at line 65279\n\r"),
    Row(42, b"\n\rOut of data at line 0\n\r", b"\n\rOut of data at line 65279\n\r"),
    Row(43, b"\n\rNot in a REPEAT loop at line 0\n\r", b"\n\rNot in a REPEAT loop at line 65279\n\r"),
    Row(46, b"\n\rNot in a WHILE loop at line 0\n\r", b"\n\rNot in a WHILE loop at line 65279\n\r"),
    Row(48, b"\n\rNo saved error handler at line 0\n\r", b"\n\rNo saved error handler at line 65279\n\r"),
    Row(255, b"\n\r at line 0\n\r", b"\n\r at line 65279\n\r"),
];

#[test]
fn closing_texts(rt: HostRuntime) -> Result<(), Fail> {
    let alloc = rt.alloc();
    for Row(error, at_0, at_65279) in &ROWS {
        let call = |line: u16| Call {
            entry: 9,
            r0: u32::from(*error),
            r1: u32::from(line),
            column: 7,
        };
        let report = |line: u16| Report::Failed {
            error: i32::from(*error),
            line,
        };
        assert!(rt; shows(alloc, call(0), at_0, report(0))?, "{error}");
        assert!(rt;
            shows(alloc, call(65_279), at_65279, report(65_279))?,
            "{error}"
        );
    }
    Ok(())
}
