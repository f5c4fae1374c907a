// The blocks of a history.

ghost use Rattle.std.specs.Prelude.{◌≡◌, ◌<◌, ◌∷◌, ℕ, suc, map, Some, None, length, slice_index_or, slice_set, IfOk, OnOk};
ghost use Rattle.mj_sys.specs.History.{History};
ghost use Rattle.mj_serial.specs.Blocks.{blocks_of, entry_of};
ghost use Rattle.mj_serial.specs.Shown.{Shown, shown, shown_after, shown_done, with_entry, shown_single, all_from};

use crate::entries::entry_of;
use mj_ask::{Ask, Kind, Reply, SharedAsk};
use mj_sys::Event;
use mj_txlog::Entry;
use std::alloc::{AllocError, Global};
use std::marker::Model;
use std::mem::replace;

/// A committed transaction, or a single access outside any.
#[derive(Drop)]
pub struct Block {
    /// the job whose it is
    pub job: u32,
    /// whether it is a SERIAL transaction
    pub serial: bool,
    /// the place in the history of the event where it begins, from 1: that of the transaction's `begin`, or of the access
    pub place: usize,
    /// its accesses with their answers, in order
    pub accesses: Vec<Entry>,
}

impl Model for Block {
    ghost use Rattle.mj_serial.specs.Shown.{Shown};

    ghost Value = { Shown };

    ghost view = { λ b. record { job = b.job; serial = b.serial; place = b.place; accesses = b.accesses.items } };
}

/// The blocks of a history, in the order of their commits: each transaction that was committed, at the place of its commit, and each access
/// outside a transaction. What was rolled back, clashed or is open isn't there, nor is an access that passed a limit or changed a local name. It
/// looks at each event once, and has a place for each job up to the one with the greatest number.
pub fn serial_blocks(alloc: Global, history: &[Event]) -> Result<Vec<Block>, AllocError>
    ensures { IfOk result (λ blocks. blocks.items ≡ map shown (blocks_of history.now)) }
{
    let mut table = Vec::new(alloc);
    let mut done = Vec::new(alloc);
    let scanned = scan(alloc, &mut table, &mut done, history);
    drop(table);
    match scanned {
        Ok(()) => Ok(done),
        Err(refused) => {
            drop(done);
            Err(refused)
        }
    }
}

// Scans a history: what each job has open, by its number, and the blocks that are over.
fn scan(
    alloc: Global,
    table: &mut Vec<Option<Block>>,
    done: &mut Vec<Block>,
    history: &[Event],
) -> Result<(), AllocError>
    ensures { OnOk result (done.new.items ≡ all_from done.old.items table.old.items 1 history.now) }
{
    for (place, event) in history.iter().enumerate() {
        look(
            alloc,
            table,
            done,
            place + 1,
            event.job,
            &event.ask,
            &event.reply,
        )?;
    }
    Ok(())
}

// Looks at one event of it.
fn look(
    alloc: Global,
    table: &mut Vec<Option<Block>>,
    done: &mut Vec<Block>,
    place: usize,
    job: u32,
    ask: &Ask,
    reply: &Reply,
) -> Result<(), AllocError>
    ensures { OnOk result ((h : History) → all_from done.new.items table.new.items (suc place) h
        ≡ all_from done.old.items table.old.items place (record { job = job; ask = ask.now; reply = reply.now } ∷ h)) }
{
    let row = job as usize;
    widen(table, row)?;
    let stood = take_out(table, row);
    let (after, block) = step(alloc, stood, place, job, ask, reply)?;
    put_back(table, row, after);
    match block {
        None => Ok(()),
        Some(block) => {
            done.push(block)?;
            Ok(())
        }
    }
}

// Makes a place for the job.
fn widen(table: &mut Vec<Option<Block>>, job: usize) -> Result<(), AllocError>
    ensures room { OnOk result (job < length table.new.items) }
    ensures same { (j : ℕ) → slice_index_or table.new.items j None ≡ slice_index_or table.old.items j None }
{
    while table.len() <= job {
        table.push(None)?;
    }
    Ok(())
}

// Takes what the job has open out of its place.
fn take_out(table: &mut Vec<Option<Block>>, job: usize) -> Option<Block>
    requires { job < length table.old.items }
    ensures taken { result ≡ slice_index_or table.old.items job None }
    ensures left { table.new.items ≡ slice_set table.old.items job None }
{
    table[job].take()
}

// Puts back what the job has open, or nothing.
fn put_back(table: &mut Vec<Option<Block>>, job: usize, block: Option<Block>)
    requires { job < length table.old.items }
    ensures { table.new.items ≡ slice_set table.old.items job block }
{
    drop(replace(&mut table[job], block));
}

// What a job has open after an event, and the block that is over with it.
fn step(
    alloc: Global,
    stood: Option<Block>,
    place: usize,
    job: u32,
    ask: &Ask,
    reply: &Reply,
) -> Result<(Option<Block>, Option<Block>), AllocError>
    ensures after { IfOk result (λ r. r.0 ≡ shown_after job place stood ask.now reply.now) }
    ensures done { IfOk result (λ r. r.1 ≡ shown_done job place stood ask.now reply.now) }
{
    match stood {
        None => outside(alloc, place, job, ask, reply),
        Some(block) => within(alloc, block, ask, reply),
    }
}

// Gives what a job has open after an event, and the block that is over with it, where it has no transaction open.
fn outside(
    alloc: Global,
    place: usize,
    job: u32,
    ask: &Ask,
    reply: &Reply,
) -> Result<(Option<Block>, Option<Block>), AllocError>
    ensures after { IfOk result (λ r. r.0 ≡ shown_after job place None ask.now reply.now) }
    ensures done { IfOk result (λ r. r.1 ≡ shown_done job place None ask.now reply.now) }
{
    match ask {
        Ask::Shared(SharedAsk::Begin(kind)) => {
            let block = Block {
                job,
                serial: *kind == Kind::Serial,
                place,
                accesses: Vec::new(alloc),
            };
            Ok((Some(block), None))
        }
        Ask::Shared(SharedAsk::Access(_)) => {
            let entry = entry_of(alloc, ask, reply)?;
            Ok((None, single(alloc, job, place, entry)?))
        }
        _ => Ok((None, None)),
    }
}

// Makes a block of a single access.
fn single(
    alloc: Global,
    job: u32,
    place: usize,
    entry: Option<Entry>,
) -> Result<Option<Block>, AllocError>
    ensures { IfOk result (λ block. block ≡ shown_single job place entry) }
{
    match entry {
        None => Ok(None),
        Some(entry) => {
            let mut accesses = Vec::new(alloc);
            accesses.push(entry)?;
            Ok(Some(Block {
                job,
                serial: false,
                place,
                accesses,
            }))
        }
    }
}

// Gives what a job has open after an event, and the block that is over with it, where it has this transaction open.
fn within(
    alloc: Global,
    block: Block,
    ask: &Ask,
    reply: &Reply,
) -> Result<(Option<Block>, Option<Block>), AllocError>
    ensures after { (job place : ℕ) → IfOk result (λ r. r.0 ≡ shown_after job place (Some block) ask.now reply.now) }
    ensures done { (job place : ℕ) → IfOk result (λ r. r.1 ≡ shown_done job place (Some block) ask.now reply.now) }
{
    match ask {
        Ask::Shared(SharedAsk::Commit) => match reply {
            Reply::Done => Ok((None, Some(block))),
            _ => {
                drop(block);
                Ok((None, None))
            }
        },
        Ask::Shared(SharedAsk::Rollback) | Ask::Shared(SharedAsk::Halt(_)) => {
            drop(block);
            Ok((None, None))
        }
        _ => longer(alloc, block, ask, reply),
    }
}

// Adds the access that the event is to the transaction, if it is one.
fn longer(
    alloc: Global,
    mut block: Block,
    ask: &Ask,
    reply: &Reply,
) -> Result<(Option<Block>, Option<Block>), AllocError>
    ensures { IfOk result (λ r. r ≡ (Some (with_entry block (entry_of ask.now reply.now)), None)) }
{
    match entry_of(alloc, ask, reply) {
        Ok(None) => Ok((Some(block), None)),
        Ok(Some(entry)) => {
            block.accesses.push(entry)?;
            Ok((Some(block), None))
        }
        Err(refused) => {
            drop(block);
            Err(refused)
        }
    }
}
