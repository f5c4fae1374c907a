// What a job was told is written.
#![tactic(auto, using(mj_gfile::proofs::Longer::begins_same, mj_gfile::proofs::Longer::begins_more, mj_gfile::proofs::Longer::begins_trans))]

ghost use Rattle.std.specs.Prelude.{◌≡◌, ◌++◌, true, OnOk};
ghost use Rattle.mj_gfile.specs.Begins.{HasFront};
ghost use Rattle.mj_ask.specs.declared.ask.Reply.TheVariants as replies;
ghost use Rattle.mj_trace.specs.Sized.{answer_fits, kept_fits, reply_fits};
ghost use Rattle.mj_trace.specs.Spelling.{spaced, answer_text, kept_text, clash_text, reply_text};

use crate::fields::{put_count, put_number, put_subtree};
use mj_ask::{Clash, Kept, Reply};
use mj_gfile::{put_name, put_subscript, put_text};
use mj_store::Answer;
use std::alloc::AllocError;

/// Puts a reply to the end of some bytes, as a trace has it. After want of memory a part of it may stand there.
pub fn put_reply(bytes: &mut Vec<u8>, reply: &Reply) -> Result<(), AllocError>
    ensures ok { OnOk result (bytes.new.items ≡ bytes.old.items ++ reply_text reply.now) }
    ensures kept { HasFront bytes.old.items bytes.new.items }
    ensures fits { OnOk result (reply_fits reply.now ≡ true) }
{
    match reply {
        Reply::Done => bytes.extend_from_slice(b"done"),
        Reply::Answer(answer) => put_answer(bytes, answer),
        Reply::Limit => bytes.extend_from_slice(b"limit"),
        Reply::Got => bytes.extend_from_slice(b"got"),
        Reply::Late => bytes.extend_from_slice(b"late"),
        Reply::NoSession => bytes.extend_from_slice(b"none"),
        Reply::Failed => bytes.extend_from_slice(b"failed"),
        Reply::End => bytes.extend_from_slice(b"end"),
        Reply::Line(text) => put_text(bytes, text),
        Reply::Byte(byte) => put_count(bytes, u32::from(*byte)),
        Reply::Job(job) => {
            bytes.extend_from_slice(b"job ")?;
            put_count(bytes, *job)
        }
        Reply::Clash(clash) => {
            bytes.extend_from_slice(b"clash ")?;
            put_clash(bytes, clash.get())
        }
    }
}

// Puts an answer to an access to the end.
fn put_answer(bytes: &mut Vec<u8>, answer: &Answer) -> Result<(), AllocError>
    ensures ok { OnOk result (bytes.new.items ≡ bytes.old.items ++ answer_text answer.now) }
    ensures kept { HasFront bytes.old.items bytes.new.items }
    ensures fits { OnOk result (answer_fits answer.now ≡ true) }
{
    match answer {
        Answer::Value(Some(text)) => put_text(bytes, text),
        Answer::Data(data) => put_count(bytes, u32::from(*data)),
        Answer::Order(Some(sub)) => put_subscript(bytes, sub),
        Answer::Query(Some(name)) => put_name(bytes, name.get()),
        Answer::Value(None) | Answer::Order(None) | Answer::Query(None) => {
            bytes.extend_from_slice(b"-")
        }
        Answer::Subtree(nodes) => put_subtree(bytes, nodes),
        Answer::Done => bytes.extend_from_slice(b"done"),
        Answer::Limit => bytes.extend_from_slice(b"limit"),
    }
}

// Puts what a clash keeps of an answer to the end.
fn put_kept(bytes: &mut Vec<u8>, kept: &Kept) -> Result<(), AllocError>
    ensures ok { OnOk result (bytes.new.items ≡ bytes.old.items ++ kept_text kept.now) }
    ensures kept { HasFront bytes.old.items bytes.new.items }
    ensures fits { OnOk result (kept_fits kept.now ≡ true) }
{
    match kept {
        Kept::Nothing => bytes.extend_from_slice(b"-"),
        Kept::Text(text) => put_text(bytes, text),
        Kept::Number(number) => put_number(bytes, *number),
        Kept::Name(name) => put_name(bytes, name.get()),
        Kept::Subtree(nodes) => put_subtree(bytes, nodes),
    }
}

// Puts a blank and what a clash keeps of an answer to the end.
fn put_kept_behind(bytes: &mut Vec<u8>, kept: &Kept) -> Result<(), AllocError>
    ensures ok { OnOk result (bytes.new.items ≡ bytes.old.items ++ spaced (kept_text kept.now)) }
    ensures kept { HasFront bytes.old.items bytes.new.items }
    ensures fits { OnOk result (kept_fits kept.now ≡ true) }
{
    bytes.push(b' ')?;
    put_kept(bytes, kept)
}

// Puts a clash to the end.
fn put_clash(bytes: &mut Vec<u8>, clash: &Clash) -> Result<(), AllocError>
    ensures ok { OnOk result (bytes.new.items ≡ bytes.old.items ++ clash_text clash.entry.now) }
    ensures kept { HasFront bytes.old.items bytes.new.items }
    ensures fits { OnOk result (reply_fits (replies.Clash clash.entry.now) ≡ true) }
{
    put_count(bytes, clash.place)?;
    put_kept_behind(bytes, &clash.then)?;
    put_kept_behind(bytes, &clash.now)
}
