// The actuals of DO and JOB.

ghost use Rattle.std.specs.Prelude.{◌≡◌, ◌≤◌, [], length, IfOk, OnOk};
ghost use Rattle.mj_pcode.specs.Machine as machines;

use mj_text::Text;
use smallvec::SmallVec;
use std::alloc::{AllocError, Global};

/// Counts the actuals that are given.
pub fn given_count(shape: &[bool]) -> usize
    ensures value { result ≡ machines.given_count shape.now }
{
    let mut count = 0;
    for given in shape {
        if *given {
            count += 1;
        }
    }
    count
}

/// Makes the values of actuals from the operands of those that are given.
pub fn spread(
    alloc: Global,
    shape: &[bool],
    values: &[Text],
) -> Result<Vec<Option<Text>>, AllocError>
    requires { machines.given_count shape.now ≤ length values.now }
    ensures { IfOk result (λ list. list.items ≡ machines.spread shape.now values.now) }
{
    let mut list = SmallVec::new(alloc);
    fill(&mut list, shape, values)?;
    match list.into_vec() {
        Ok(list) => Ok(list),
        Err(_) => Err(AllocError),
    }
}

/// Fills an empty list with the values of actuals, of which these are given. A few take no memory.
pub fn fill(
    list: &mut SmallVec<Option<Text>, 4>,
    shape: &[bool],
    values: &[Text],
) -> Result<(), AllocError>
    requires empty { list.old.items ≡ [] }
    requires enough { machines.given_count shape.now ≤ length values.now }
    ensures { OnOk result (list.new.items ≡ machines.spread shape.now values.now) }
{
    let mut rest = values;
    for given in shape {
        if !*given {
            list.push(None)?;
            continue;
        }
        match rest {
            [] => unreachable!(),
            [value, others @ ..] => {
                list.push(Some(value.try_clone()?))?;
                rest = others;
            }
        }
    }
    Ok(())
}
