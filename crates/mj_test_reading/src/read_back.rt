// Traces: what is read and written, and what is refused.

use crate::fronts::{Form, wrong_code, wrong_front};
use crate::tables::{Reading, judge};
use crate::traces::trace_told;
use std::test::Fail;

// A trace of the older form, of three devices and three starts, with every ask and every reply.
const ALL: &str = "mj-trace 1
pool \"0\" 255
pool \"F\" 0
pool \"F\\0a\" 4294967295
start ^R
start %1^Rx
start 007^R
1 dev \"0\" begin done
2 dev \"0\" begin failed
1 set ^A \"20\" done
1 set ^A(1,\"x\",-5) \"a\"\"b\\\\\\ff\" limit
1 value ^A \"20\"
1 value ^A(\"01\") -
1 value ^A limit
1 data ^A 11
1 order ^A(\"\") 1 -
1 order ^A(1,\"\") -1 -7
1 order ^A 1 \"x\"
1 query ^A(\"\") ^A(1,\"x\")
1 query ^A -
1 subtree ^A {}
1 subtree ^A {()=\"20\",(1)=\"\",(1,\"x\")=\"a,)\"}
1 kill ^A done
1 put ^A {(1)=\"1\"} done
1 put ^A {} limit
1 try ^A,A(1),^A(1,2) :5 late
1 try A got
1 try A :-3 limit
1 unlock A,^B done
1 unlock * limit
1 begin done
1 begin serial done
1 commit done
1 commit clash 1 - \"x\"
1 commit clash 65536 -5 ^A(1)
1 commit clash 2 {()=\"1\"} {}
1 rollback done
1 open \"F\" got
1 open \"F\" :0 none
1 close \"F\" done
1 start ^R () job 4294967295
1 start A^R (\"x\",-,\"\") :999999999999999999 limit
1 dev \"0\" write \"20\" done
1 dev \"0\" line \"\"
1 dev \"0\" line :1 end
1 dev \"0\" byte 255
1 dev \"0\" byte :1 late
1 dev \"0\" end failed
1 rest -1 done
1 halt done
4294967295 halt F22 done
";

// The trace of `SET ^Sum=2+3*4 WRITE ^Sum,! HALT`.
const FIRST: &str = "mj-trace 2
limit 1048576
pool \"0\" 255
start ^R
1 - dev \"0\" begin done
1 R:1 set ^Sum \"20\" done
1 R:1 value ^Sum \"20\"
1 R:1 dev \"0\" write \"20\" done
1 R:1 dev \"0\" write \"\\0a\" done
1 R:1 dev \"0\" end done
1 R:1 halt done
";

// A trace with places.
const PLACED: &str = "mj-trace 2
limit 32767
pool \"0\" 1
start ^R
1 - dev \"0\" begin done
1 R:1 set ^A \"20\" done
1 %z9:4294967295 value ^A \"20\"
1 Q123456789012345678901234567890:0 begin done
1 - halt done
";

#[test]
fn traces_are_read_and_written(rt: HostRuntime) -> Result<(), Fail> {
    let older = "mj-trace 1\npool \"0\" 1\nstart ^R\n";
    let smaller = "mj-trace 2\nlimit 32767\npool \"0\" 1\nstart ^R\n";
    for text in [FIRST, PLACED, ALL, older, smaller] {
        let said = trace_told(rt.alloc(), text.as_bytes(), 1_000_000)?;
        assert_eq!(rt; said.as_str(), "same");
    }
    Ok(())
}

// Behind a device and a start, in the older form.
#[test]
fn what_is_no_event_is_refused_by_its_line(rt: HostRuntime) -> Result<(), Fail> {
    let rows = "1 value ^A \"20\" => X2 line 4
~ => X2 line 4
1 halt done~1 halt F23 done~ => X2 line 5
1 halt F0 done~ => X2 line 4
01 halt done~ => X2 line 4
-1 halt done~ => X2 line 4
4294967296 halt done~ => X2 line 4
1  halt done~ => X2 line 4
1 halt done ~ => X2 line 4
1 halt done\r~ => X2 line 4
1 halt limit~ => X2 line 4
1 value A \"20\"~ => X2 line 4
1 value ^A(\"\") -~ => X2 line 4
1 value ^A(\"5\") -~ => X2 line 4
1 order ^A(\"\",1) 1 -~ => X2 line 4
1 order ^A(\"\") 2 -~ => X2 line 4
1 order ^A(\"\") 1 \"\"~ => X2 line 4
1 order ^A(\"\") 1 \"5\"~ => X2 line 4
1 query ^A A~ => X2 line 4
1 data ^A 2~ => X2 line 4
1 value ^A \"\\41\"~ => X2 line 4
1 value ^A \"\\FF\"~ => X2 line 4
1 subtree ^A {(2)=\"\",(1)=\"\"}~ => X2 line 4
1 subtree ^A {(1)=\"\",(1)=\"\"}~ => X2 line 4
1 subtree ^A {(\"\")=\"\"}~ => X2 line 4
1 try  got~ => X2 line 4
1 try A :5~ => X2 line 4
1 try A :1000000000000000000 got~ => X2 line 4
1 commit clash 0 - \"x\"~ => X2 line 4
1 commit clash 1 - A~ => X2 line 4
1 dev \"0\" byte 256~ => X2 line 4
1 start R () job 2~ => X2 line 4
start ^R~start ^R~ => X2 line 5
1 halt done~start ^R~ => X2 line 5
pool \"1\" 1~ => X2 line 4
1 - halt done~ => X2 line 4
1 R:1 halt done~ => X2 line 4
1 halt done~limit 32767~ => X2 line 5
";
    judge(&rt, Reading::Events, rows)
}

// Behind as many events as there may be, each line is one too many, whatever it says.
#[test]
fn no_more_events_are_read_than_there_may_be(rt: HostRuntime) -> Result<(), Fail> {
    let two = "1 halt done~1 halt done~ => same
1 halt done~ => same
1 halt done~1 halt done~1 halt done~ => X3 line 6
1 halt done~1 halt done~no event~ => X3 line 6
1 halt done~1 halt done~no end => X3 line 6
1 halt done~no event~ => X2 line 5
1 halt done~1 halt done => X2 line 5
";
    judge(&rt, Reading::Bounded(2), two)?;
    judge(
        &rt,
        Reading::Bounded(4_294_967_295),
        "1 halt done~1 halt done~ => same\n",
    )?;
    judge(
        &rt,
        Reading::Bounded(0),
        " => same\n1 halt done~ => X2 line 4\n",
    )
}

// Behind a device and a start, in today's form.
#[test]
fn what_is_no_event_with_a_place_is_refused_by_its_line(rt: HostRuntime) -> Result<(), Fail> {
    let rows = "1 - halt done~1 R:1 halt done~ => same
1 halt done~ => X2 line 5
1 - halt done => X2 line 5
1  halt done~ => X2 line 5
1 -- halt done~ => X2 line 5
1 -1 halt done~ => X2 line 5
1 - - halt done~ => X2 line 5
1 R halt done~ => X2 line 5
1 R: halt done~ => X2 line 5
1 R:01 halt done~ => X2 line 5
1 R:-1 halt done~ => X2 line 5
1 R:4294967296 halt done~ => X2 line 5
1 R.1 halt done~ => X2 line 5
1 R :1 halt done~ => X2 line 5
1 R:1halt done~ => X2 line 5
1 R:1  halt done~ => X2 line 5
1 :1 halt done~ => X2 line 5
1 1:1 halt done~ => X2 line 5
1 ^R:1 halt done~ => X2 line 5
1 Q1234567890123456789012345678901:1 halt done~ => X2 line 5
R:1 1 halt done~ => X2 line 5
1 - value A \"20\"~ => X2 line 5
1 - halt done~start ^R~ => X2 line 6
";
    judge(&rt, Reading::Placed, rows)
}

#[test]
fn what_is_no_trace_is_refused_by_its_first_line(rt: HostRuntime) -> Result<(), Fail> {
    let rows = " => X1
mj-trace 1 => X1
mj-trace 2 => X1
mj-trace 3~ => X1
mj-trace~ => X1
limit 1048576~mj-trace 2~ => X1
mj-trace 2~ => X2 line 2
mj-trace 2~limit 32767 => X2 line 2
mj-trace 2~limit 32768~ => X2 line 2
mj-trace 2~limit 0~ => X2 line 2
mj-trace 2~limit 032767~ => X2 line 2
mj-trace 2~limit 1048576 ~ => X2 line 2
mj-trace 2~Limit 1048576~ => X2 line 2
mj-trace 2~pool \"0\" 1~start ^R~ => X2 line 2
mj-trace 2~limit 1048576~ => X2 line 3
mj-trace 2~limit 32767~limit 32767~ => X2 line 3
mj-trace 2~limit 32767~pool \"0\" 1~ => X2 line 4
mj-trace 2~limit 1048576~pool \"F\" 1~pool \"0\" 1~ => X2 line 4
mj-trace 1~limit 32767~ => X2 line 2
mj-trace 1~ => X2 line 2
mj-trace 1~pool \"0\" 1~ => X2 line 3
mj-trace 1~pool \"0\" 1~1 halt done~ => X2 line 3
mj-trace 1~start ^R~ => X2 line 2
mj-trace 1~pool \"F\" 1~pool \"0\" 1~ => X2 line 3
mj-trace 1~pool \"0\" 1~pool \"0\" 1~ => X2 line 3
mj-trace 1~pool \"0\" 1~start ^R~start ^R~ => X2 line 4
mj-trace 1~pool \"0\" 4294967296~ => X2 line 2
mj-trace 1~pool \"0\" 01~ => X2 line 2
";
    judge(&rt, Reading::Trace, rows)
}

#[test]
fn each_front_of_a_trace_is_read_or_refused(rt: HostRuntime) -> Result<(), Fail> {
    assert_eq!(rt; wrong_front(rt.alloc(), Form::Trace, ALL.as_bytes())?, None);
    assert_eq!(rt;
        wrong_front(rt.alloc(), Form::Trace, PLACED.as_bytes())?,
        None
    );
    Ok(())
}

#[test]
fn a_trace_with_places_with_one_byte_replaced_is_read_or_refused(
    rt: HostRuntime,
) -> Result<(), Fail> {
    assert_eq!(rt; wrong_code(rt.alloc(), Form::Trace, PLACED, 0, 1)?, None);
    Ok(())
}

// The place and the code of the first that is neither, in part 1 of 8.
#[test]
fn a_trace_with_one_byte_replaced_is_read_or_refused_1(rt: HostRuntime) -> Result<(), Fail> {
    assert_eq!(rt; wrong_code(rt.alloc(), Form::Trace, ALL, 0, 8)?, None);
    Ok(())
}

// The place and the code of the first that is neither, in part 2 of 8.
#[test]
fn a_trace_with_one_byte_replaced_is_read_or_refused_2(rt: HostRuntime) -> Result<(), Fail> {
    assert_eq!(rt; wrong_code(rt.alloc(), Form::Trace, ALL, 1, 8)?, None);
    Ok(())
}

// The place and the code of the first that is neither, in part 3 of 8.
#[test]
fn a_trace_with_one_byte_replaced_is_read_or_refused_3(rt: HostRuntime) -> Result<(), Fail> {
    assert_eq!(rt; wrong_code(rt.alloc(), Form::Trace, ALL, 2, 8)?, None);
    Ok(())
}

// The place and the code of the first that is neither, in part 4 of 8.
#[test]
fn a_trace_with_one_byte_replaced_is_read_or_refused_4(rt: HostRuntime) -> Result<(), Fail> {
    assert_eq!(rt; wrong_code(rt.alloc(), Form::Trace, ALL, 3, 8)?, None);
    Ok(())
}

// The place and the code of the first that is neither, in part 5 of 8.
#[test]
fn a_trace_with_one_byte_replaced_is_read_or_refused_5(rt: HostRuntime) -> Result<(), Fail> {
    assert_eq!(rt; wrong_code(rt.alloc(), Form::Trace, ALL, 4, 8)?, None);
    Ok(())
}

// The place and the code of the first that is neither, in part 6 of 8.
#[test]
fn a_trace_with_one_byte_replaced_is_read_or_refused_6(rt: HostRuntime) -> Result<(), Fail> {
    assert_eq!(rt; wrong_code(rt.alloc(), Form::Trace, ALL, 5, 8)?, None);
    Ok(())
}

// The place and the code of the first that is neither, in part 7 of 8.
#[test]
fn a_trace_with_one_byte_replaced_is_read_or_refused_7(rt: HostRuntime) -> Result<(), Fail> {
    assert_eq!(rt; wrong_code(rt.alloc(), Form::Trace, ALL, 6, 8)?, None);
    Ok(())
}

// The place and the code of the first that is neither, in part 8 of 8.
#[test]
fn a_trace_with_one_byte_replaced_is_read_or_refused_8(rt: HostRuntime) -> Result<(), Fail> {
    assert_eq!(rt; wrong_code(rt.alloc(), Form::Trace, ALL, 7, 8)?, None);
    Ok(())
}
