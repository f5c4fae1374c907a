// What is recorded of devices, told one by one to a core without any.

use crate::blank::stepped;
use crate::judged::hold;
use std::test::Fail;

// Without a reply a device's ask is unfit, with one it is told it. A reply that isn't one to the ask, or that comes late before its time, changes nothing; what
// is shared needs none. Behind a failure only the end of that session may follow.
#[test]
fn what_is_recorded_is_told(rt: HostRuntime) -> Result<(), Fail> {
    let steps = "go
late done
go done
go
go line abc
go done
go late
late late
go done
go failed
go done
go end
go done
go done
go done
go
go
";
    let wanted = "unfit
C2
1 dev \"0\" begin done
1 open \"F\" got
unfit
1 dev \"F\" begin done
unfit
1 dev \"F\" line :5 late
1 dev \"F\" write \"ab\" done
1 dev \"F\" write \"c\" failed
1 dev \"0\" write \"F16 DEVICE R:1\\0a\" done
unfit
1 dev \"F\" end done
1 dev \"0\" end done
1 halt F16 done
ended
C3
F took ab
";
    tells(
        &rt,
        " OPEN \"F\" USE \"F\" READ X:5 WRITE \"ab\",\"c\"\n",
        steps,
        wanted,
    )
}

// A line of which a byte was read goes on where it stands: nothing is late or at its end before it is over.
#[test]
fn a_line_goes_on(rt: HostRuntime) -> Result<(), Fail> {
    let steps = "go done
go byte 97
late late
go end
go line bc
go done
go
";
    let wanted = "1 dev \"0\" begin done
1 dev \"0\" byte 97
unfit
unfit
1 dev \"0\" line :5 \"bc\"
1 dev \"0\" write \"bc\" done
unfit
F took 
";
    tells(&rt, " READ *X,Y:5 WRITE Y\n", steps, wanted)
}

// Fails where the lines of a routine that is stepped so aren't these.
fn tells(rt: &HostRuntime, bytes: &str, steps: &str, wanted: &str) -> Result<(), Fail> {
    let lines = stepped(rt.alloc(), bytes, steps)?;
    let told = hold(lines.as_slice() == wanted.as_bytes(), bytes, &lines);
    drop(lines);
    told
}
