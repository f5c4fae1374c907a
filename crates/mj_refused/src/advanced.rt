// A job alone, let go on from ask to ask.

ghost use Rattle.std.specs.Prelude.{◌≡◌, true};
ghost use Rattle.mj_text.specs.declared.limit.Limit.TheVariants.{V2};
ghost use Rattle.mj_ask.specs.Within.{is_reply_within};
ghost use Rattle.mj_jobvm.specs.Jobs.{IsIn, IsRunOf};
ghost use Rattle.mj_load.specs.Image.{Loaded};
ghost use Rattle.mj_semantics.specs.Job.{Start as Starts};

use crate::histories::put_log;
use crate::listening::{may_not_refuse, may_refuse};
use crate::script::{is_event, noted_line, script};
use crate::told::Told;
use mj_ask::{Noted, Reply};
use mj_jobvm::{Job, Turn};
use mj_load::Image;
use mj_test_core::begins::{image, start};
use mj_text::Failure;
use mj_trace::{Form, event_line};
use std::alloc::{AllocError, Global};

// How many turns a job is let go on for at once, which is enough to ask.
const FUEL: u64 = 100_000;

const ROUTINE: &str =
    " SET X=3,Y=\"ab\",Z(1,\"q\")=X*2+1 NEW Y SET Y=$PIECE(\"a,b,c\",\",\",2)_$EXTRACT(\"hello\",2,3)
 FOR I=1:1:3 SET W(I)=I*I DO SUB(I,\"v\")
 MERGE ^G=W SET V=$ORDER(^G(\"\")) KILL W(2) SET N=$NAME(^G(1,\"x\"))
 TSTART (X):SERIAL SET X=X+1 IF $TRESTART=0 TRESTART
 TCOMMIT  WRITE $JUSTIFY(X,3),$QUERY(Z),!,S LOCK +^L(X):2 JOB SUB(1)::5 QUIT
SUB(P,Q) NEW R SET R=P_Q,S=$GET(S)_R QUIT
";

// What it asks, and is told.
const EVENTS: &str = "1 dev \"0\" begin done
1 put ^G {(1)=\"1\",(2)=\"4\",(3)=\"9\"} done
1 order ^G(\"\") 1 1
1 begin serial done
1 rollback done
1 begin serial done
1 commit done
1 dev \"0\" write \"  4\" done
1 dev \"0\" write \"Z(1,\"\"q\"\")\" done
1 dev \"0\" write \"\\0a\" done
1 dev \"0\" write \"1v2v3v\" done
1 try ^L(4) :2 got
1 start SUB^R (\"1\") :5 job 2
1 dev \"0\" end done
1 halt done
";

/// A job goes on to each of its asks, and to its end.
pub fn make_all(alloc: Global, told: &mut Told) -> Result<(), Failure> {
    told.put(b"a job goes on")?;
    let image = image(alloc, ROUTINE)?;
    let done = advance_all(alloc, told, &image);
    drop(image);
    done
}

fn advance_all(alloc: Global, told: &mut Told, image: &Image) -> Result<(), Failure>
    requires { image.now.bounds.limit ≡ V2 }
{
    let script = script(alloc, EVENTS)?;
    let done = follow(alloc, told, image, script.events());
    drop(script);
    done
}

fn follow(alloc: Global, told: &mut Told, image: &Image, events: &[Noted]) -> Result<(), Failure>
    requires { image.now.bounds.limit ≡ V2 }
{
    let (entry, values) = start(alloc)?.into_parts();
    let mut job = Job::start(alloc, image, 1, entry, values);
    let done = go_on(alloc, told, image, &mut job, events);
    drop(job);
    Ok(done?)
}

fn go_on(
    alloc: Global,
    told: &mut Told,
    image: &Image,
    job: &mut Job,
    events: &[Noted],
) -> Result<(), AllocError>
    requires own { IsIn image.now job.old }
    requires long { image.now.bounds.limit ≡ V2 }
{
    for event in events {
        exchange(alloc, told, image, job, event)?;
    }
    let ended = advance(alloc, told, image, job)?;
    told.hold(b"job", b"it hasn't ended", ended)
}

// Lets a job go on to an ask, and tells it what an event says.
fn exchange(
    alloc: Global,
    told: &mut Told,
    image: &Image,
    job: &mut Job,
    event: &Noted,
) -> Result<(), AllocError>
    requires own { IsIn image.now job.old }
    requires long { image.now.bounds.limit ≡ V2 }
    ensures { IsIn image.now job.new }
{
    advance(alloc, told, image, job)?;
    let reply = event.reply.try_clone()?;
    answer(alloc, told, job, event, reply)
}

// Lets a job go on, once more where memory was refused, and says whether it has ended.
fn advance(alloc: Global, told: &mut Told, image: &Image, job: &mut Job) -> Result<bool, AllocError>
    requires { IsIn image.now job.old }
    ensures { IsIn image.now job.new }
{
    let before = standing(alloc, job)?;
    let ended = advance_from(alloc, told, image, job, &before);
    drop(before);
    ended
}

// Lets a job that stands so go on.
fn advance_from(
    alloc: Global,
    told: &mut Told,
    image: &Image,
    job: &mut Job,
    before: &[u8],
) -> Result<bool, AllocError>
    requires { IsIn image.now job.old }
    ensures { IsIn image.now job.new }
{
    may_refuse(alloc);
    let turn = job.advance(image, FUEL);
    may_not_refuse(alloc);
    let Ok(turn) = turn else {
        return again(alloc, told, image, job, before);
    };
    Ok(matches!(turn, Turn::Ended))
}

fn again(
    alloc: Global,
    told: &mut Told,
    image: &Image,
    job: &mut Job,
    before: &[u8],
) -> Result<bool, AllocError>
    requires { IsIn image.now job.old }
    ensures { IsIn image.now job.new }
{
    let after = standing(alloc, job)?;
    let put = told.refused(b"job", after.as_slice() == before);
    drop(after);
    put?;
    match job.advance(image, FUEL) {
        Ok(turn) => Ok(matches!(turn, Turn::Ended)),
        Err(_) => {
            told.put(b"job: once more, memory")?;
            Ok(false)
        }
    }
}

// Tells a job what an event says, by this copy of its reply, if it asks what that says.
fn answer(
    alloc: Global,
    told: &mut Told,
    job: &mut Job,
    event: &Noted,
    reply: Reply,
) -> Result<(), AllocError>
    ensures { (image : Loaded) (start : Starts) → is_reply_within image.bounds.limit reply ≡ true
        → IsRunOf image start job.old → IsRunOf image start job.new }
{
    let asked = match job.ask() {
        Some(ask) if ask.fits(&reply) => is_event(alloc, 1, ask, &reply, event),
        _ => Ok(false),
    };
    match asked {
        Ok(true) => {
            if let Some(ask) = job.ask() {
                if ask.fits(&reply) {
                    job.answer(reply);
                }
            }
            Ok(())
        }
        _ => {
            drop(reply);
            put_other(alloc, told, event)
        }
    }
}

fn put_other(alloc: Global, told: &mut Told, event: &Noted) -> Result<(), AllocError> {
    let line = noted_line(alloc, event)?;
    let put = told.hold(b"job", &line, false);
    drop(line);
    put
}

// A job's log, and what it asks.
fn standing(alloc: Global, job: &Job) -> Result<Vec<u8>, AllocError> {
    let mut text = Vec::new(alloc);
    put_log(alloc, &mut text, 1, job.log())?;
    if let Some(ask) = job.ask() {
        let line = event_line(alloc, Form::First, 1, None, ask, &Reply::Done)?;
        let put = text.extend_from_slice(&line);
        drop(line);
        put?;
    }
    Ok(text)
}
