// Steps: files of them, and jobs in turn.

use mj_steps::{Ending, Refusal, Standing, Step, Stepped, Way, read, step_by, step_in_turn};
use std::test::Fail;

fn go(job: u32) -> Step {
    Step { job, way: Way::Go }
}

fn late(job: u32) -> Step {
    Step {
        job,
        way: Way::Late,
    }
}

#[test]
fn steps_are_read(rt: HostRuntime) -> Result<(), Fail> {
    let files: [(&str, &[Step]); 6] = [
        ("", &[]),
        ("1", &[go(1)]),
        ("1\n", &[go(1)]),
        ("2 late", &[late(2)]),
        ("1\n2\n2 late\n255\n", &[go(1), go(2), late(2), go(255)]),
        ("10 late\n100\n99", &[late(10), go(100), go(99)]),
    ];
    for (bytes, steps) in files {
        let found = read(rt.alloc(), bytes.as_bytes())?;
        assert!(rt; found.as_slice() == steps, "{bytes}");
    }
    Ok(())
}

#[test]
fn lines_that_are_no_steps_are_refused(rt: HostRuntime) -> Result<(), Fail> {
    for (bytes, told) in [
        ("0", "S1 line 1"),
        ("256", "S1 line 1"),
        ("01", "S1 line 1"),
        ("+1", "S1 line 1"),
        ("1000", "S1 line 1"),
        ("1 Late", "S1 line 1"),
        ("1  late", "S1 line 1"),
        ("1 late ", "S1 line 1"),
        ("late", "S1 line 1"),
        (" late", "S1 line 1"),
        ("1 ", "S1 line 1"),
        (" 1", "S1 line 1"),
        ("1\r\n", "S1 line 1"),
        ("\n", "S1 line 1"),
        ("1\n\n2\n", "S1 line 2"),
        ("1\n\n", "S1 line 2"),
        ("1\n2 late\n3x\n0\n", "S1 line 3"),
    ] {
        match read(rt.alloc(), bytes.as_bytes()) {
            Ok(_) => return Err(Fail::from(bytes)),
            Err(error) => {
                let text = format!(in rt.alloc(); "{error}")?;
                assert_eq!(rt; text.as_str(), told);
            }
        }
    }
    Ok(())
}

// A job that goes on for some steps.
#[derive(Drop)]
struct Long {
    left: usize,
}

impl Stepped for Long {
    ghost count = { λ _. 1 };

    // what a step comes to is for the test to see
    ghost makes = { λ _ _ _ _. Unit {0} };

    fn jobs(&self) -> usize {
        1
    }

    fn step(&mut self, _step: Step) -> Result<Standing, Refusal> {
        self.left = self.left.saturating_sub(1);
        if self.left == 0 {
            Ok(Standing::Ended)
        } else {
            Ok(Standing::Goes)
        }
    }
}

#[test]
fn a_job_is_full_past_the_limit_of_steps(rt: HostRuntime) {
    assert!(rt; step_in_turn(&mut Long { left: 5 }, 5) == Ending::Over);
    assert!(rt; step_in_turn(&mut Long { left: 6 }, 5) == Ending::Full);
    assert!(rt; step_by(&mut Long { left: 5 }, &[go(1), late(1)]) == Ending::Over);
}
