// A job alone, which is told `done` whatever it asks.

ghost use Rattle.std.specs.Prelude.{◌≡◌, true};
ghost use Rattle.mj_ask.specs.Within.{is_reply_within};
ghost use Rattle.mj_ask.specs.declared.ask.Reply.TheVariants as replies;
ghost use Rattle.mj_semantics.specs.Job.{Start as Starts};
ghost use Rattle.mj_load.specs.Image.{Loaded};
ghost use Rattle.mj_jobvm.specs.Jobs.{IsIn, IsRunOf};

use crate::begins::{image, start};
use crate::judged::hold;
use mj_ask::Reply;
use mj_jobvm::{Job, Turn};
use mj_load::Image;
use mj_text::Failure;
use mj_trace::{Form, put_event};
use std::alloc::{AllocError, Global};
use std::test::Fail;

// How many turns a job is let go on for at once, which is enough to ask.
const FUEL: u64 = 1_000;

// How many calls of a job there are at most.
const CALLS: u32 = 1_000_100;

// A job asks 1,000,000 times, the asks of its ending apart. In the place of one more comes a fault, and it ends as by any other.
#[test]
fn a_job_asks_1000000_times(rt: HostRuntime) -> Result<(), Fail> {
    let lines = ended(rt.alloc(), " FOR  HANG 1,1,1,1,1,1,1,1,1,1\n")?;
    let wanted = "1000003
1 rest 1 done
1 dev \"0\" write \"F19 STEPS R:1\\0a\" done
1 dev \"0\" end done
1 halt F19 done
";
    let told = hold(lines.as_slice() == wanted.as_bytes(), "asks", &lines);
    drop(lines);
    told
}

// What is told of the log of job 1, which begins at the first line of `R`, when it has ended.
fn ended(alloc: Global, bytes: &str) -> Result<Vec<u8>, Failure> {
    let image = image(alloc, bytes)?;
    let lines = ended_in(alloc, &image);
    drop(image);
    lines
}

fn ended_in(alloc: Global, image: &Image) -> Result<Vec<u8>, Failure> {
    let (entry, values) = start(alloc)?.into_parts();
    let mut job = Job::start(alloc, image, 1, entry, values);
    let lines = match tell_all(image, &mut job) {
        Ok(()) => last_lines(alloc, &job),
        Err(error) => Err(error),
    };
    drop(job);
    Ok(lines?)
}

// Lets a job go on to its end.
fn tell_all(image: &Image, job: &mut Job) -> Result<(), AllocError>
    requires { IsIn image.now job.old }
{
    for _ in 0..CALLS {
        if is_over(image, job)? {
            return Ok(());
        }
    }
    Ok(())
}

// Lets a job go on to its next ask, tells it `done` if that fits it, and says whether it is over.
fn is_over(image: &Image, job: &mut Job) -> Result<bool, AllocError>
    requires { IsIn image.now job.old }
    ensures { IsIn image.now job.new }
{
    match job.advance(image, FUEL)? {
        Turn::Asks => {
            tell(job);
            Ok(false)
        }
        Turn::Ran => Ok(false),
        Turn::Ended => Ok(true),
    }
}

// Tells a job `done`, if that fits what it asks.
fn tell(job: &mut Job)
    ensures { (image : Loaded) (start : Starts) → is_reply_within image.bounds.limit replies.Done ≡ true
        → IsRunOf image start job.old → IsRunOf image start job.new }
{
    if let Some(ask) = job.ask() {
        if ask.fits(&Reply::Done) {
            job.answer(Reply::Done);
        }
    }
}

// How many entries its log has, and a line for each of the last four.
fn last_lines(alloc: Global, job: &Job) -> Result<Vec<u8>, AllocError> {
    let log = job.log();
    let count = log.len();
    let mut lines = Vec::new(alloc);
    put_number(alloc, &mut lines, count)?;
    for (ask, reply) in log.get(count.saturating_sub(4)..).unwrap_or(&[]) {
        put_event(alloc, &mut lines, Form::First, 1, None, ask, reply)?;
    }
    Ok(lines)
}

fn put_number(alloc: Global, lines: &mut Vec<u8>, number: usize) -> Result<(), AllocError> {
    let text = format!(in alloc; "{number}\n")?;
    let put = lines.extend_from_slice(text.as_bytes());
    drop(text);
    put
}
