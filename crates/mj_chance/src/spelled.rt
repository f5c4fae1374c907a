// Steps, spelled as a file of steps has them.

ghost use Rattle.std.specs.Prelude.{◌≡◌, ◌++◌, ◌∷◌, [], All, IfOk, OnOk};
ghost use Rattle.mj_steps.specs.Steps.{AreSpelled, IsStep, line_of, mark_of};
ghost use Rattle.mj_chance.specs.Spelled.{ended_lines};

use itoa::Buffer;
use mj_steps::{Step, Way};
use std::alloc::{AllocError, Global};

/// The bytes of a file that has these steps: a line for each. They are read back as these steps, if each is one of a job that there may be.
pub fn put_steps(alloc: Global, steps: &[Step]) -> Result<Vec<u8>, AllocError>
    ensures lines { IfOk result (λ bytes. bytes.items ≡ ended_lines steps.now) }
    ensures read { All IsStep steps.now → IfOk result (λ bytes. AreSpelled bytes.items steps.now) }
{
    let mut bytes = Vec::new(alloc);
    'steps: for step in steps {
        put_step(&mut bytes, *step)?;
    }
    Ok(bytes)
}

// Puts the line of a step to the end. Where memory is refused a part of it may stand there.
fn put_step(bytes: &mut Vec<u8>, step: Step) -> Result<(), AllocError>
    ensures { OnOk result (bytes.new.items ≡ bytes.old.items ++ (line_of step ++ 10 ∷ [])) }
{
    bytes.extend_from_slice(Buffer::new().format(step.job).as_bytes())?;
    put_mark(bytes, step.way)?;
    bytes.push(b'\n')?;
    Ok(())
}

// Puts what says how a job is stepped to the end.
fn put_mark(bytes: &mut Vec<u8>, way: Way) -> Result<(), AllocError>
    ensures { OnOk result (bytes.new.items ≡ bytes.old.items ++ mark_of way) }
{
    match way {
        Way::Go => Ok(()),
        Way::Late => bytes.extend_from_slice(b" late"),
    }
}
