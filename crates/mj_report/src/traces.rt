// The trace of a run.

ghost use Rattle.std.specs.Prelude.{◌≡◌, ◌+◌, ◌≤◌, ◌<◌, ◌^◌, ◌++◌, ℕ, None, true, map, option_map, length, IfOk, IfSome, OnOk};
ghost use Rattle.std.specs.List.{list_all, slice_index_or};
ghost use Rattle.mj_dev.specs.Shelves.{AreRising, count_of};
ghost use Rattle.mj_load.specs.Image.{program_of};
ghost use Rattle.mj_core.specs.Runs.{IsRun, ArePlacedIn, places_lent, places_at};
ghost use Rattle.mj_text.specs.declared.limit.Limit.TheVariants.{V2};
ghost use Rattle.mj_trace.specs.declared.form.Form.TheVariants.{Second};
ghost use Rattle.mj_trace.specs.Lines.{events_limit};
ghost use Rattle.mj_trace.specs.Trace.{opening_text, event_lines};
ghost use Rattle.mj_trace.specs.Sized.{device_count_fits, event_fits};
ghost use Rattle.mj_recorded.specs.Traces.{noted_of, entries_of, IsReadBack};
ghost use Rattle.mj_replica.specs.Placed.{spot_for};
ghost use Rattle.mj_report.specs.Traced.{IsHead, count_in, with_one};

use crate::history::Events;
use mj_ask::{Entry, Spot, Start};
use mj_dev::{Device, Pool};
use mj_jobvm::Places;
use mj_load::Image;
use mj_recorded::traces_are_read_back;
use mj_replica::spot_for;
use mj_sys::Opening;
use mj_text::Limit;
use mj_trace::{Form, put_event, put_opening};
use std::alloc::{AllocError, Global};

// How traces are written: what runs has the greater limit for its texts.
const FORM: Form = Form::Second(Limit::V2);

/// A trace that is to be written: where it goes, and what stands in it before the events.
#[derive(Drop)]
pub struct Trace<'a> {
    /// the file to which it goes
    pub file: &'a str,
    /// the bytes before those of the events
    pub opening: Vec<u8>,
}

/// The trace of a run that begins with these, exactly where a file is named for it, and it goes to that file.
pub fn trace_of<'a, D: Device>(
    alloc: Global,
    file: Option<&'a str>,
    pool: &Pool<D>,
    starts: &[Start],
) -> Result<Option<Trace<'a>>, AllocError>
    ensures text { IfOk result
        (λ trace. IfSome trace (λ trace. trace.opening.items ≡ opening_text (Second V2) (map count_of pool.now) (entries_of starts.now))) }
    ensures sized { IfOk result (λ trace. IfSome trace (λ trace. list_all device_count_fits (map count_of pool.now) ≡ true)) }
    ensures rising { IfOk result (λ trace. IfSome trace (λ trace. AreRising pool.now)) }
    ensures traced { IfOk result (λ trace. option_map (λ t. t.file.now) trace ≡ option_map (λ word. word.now) file.entry) }
{
    let Some(file) = file else {
        return Ok(None);
    };
    let counts = pool.counts()?;
    let entries = entries(alloc, starts)?;
    let mut opening = Vec::new(alloc);
    put_opening(alloc, &mut opening, FORM, &counts, &entries)?;
    Ok(Some(Trace { file, opening }))
}

// The entries at which jobs start.
fn entries(alloc: Global, starts: &[Start]) -> Result<Vec<Entry>, AllocError>
    ensures { IfOk result (λ entries. entries.items ≡ entries_of starts.now) }
{
    let mut entries = Vec::new(alloc);
    'starts: for start in starts {
        let entry = start.entry().try_clone()?;
        entries.push(entry)?;
    }
    Ok(entries)
}

impl<'a> Trace<'a> {
    /// Its bytes, of a run of this image that began as it says: where as many events may be read, they are read back as the trace of the run, and a replay of
    /// that says that it is a run.
    pub fn run<O: Opening, H: Events>(
        &self,
        alloc: Global,
        image: &Image,
        told: &H,
        places: &[Option<&Places>],
    ) -> Result<Vec<u8>, AllocError>
        requires head { IsHead image.now O.opening self.now.opening.items }
        requires run { IsRun (program_of image.now) O.opening (H.history told.now) }
        requires placed { ArePlacedIn (program_of image.now) O.opening (H.history told.now) (places_at (places_lent places.now)) }
        ensures text { IfOk result (λ bytes. bytes.items
            ≡ self.now.opening.items ++ event_lines (Second V2) (noted_of (places_at (places_lent places.now)) (H.history told.now))) }
        ensures read { (most : ℕ) → length (H.history told.now) ≤ most → most ≤ events_limit
            → IfOk result (λ bytes. IsReadBack most image.now O.opening (H.history told.now) bytes.items) }
    {
        traces_are_read_back();
        self.bytes(alloc, told, places)
    }

    /// Its bytes: a line for each event behind what stands before them, with the place of its ask, where these are the places of each job's asks.
    pub fn bytes<H: Events>(
        &self,
        alloc: Global,
        told: &H,
        places: &[Option<&Places>],
    ) -> Result<Vec<u8>, AllocError>
        ensures text { IfOk result (λ bytes. bytes.items
            ≡ self.now.opening.items ++ event_lines (Second V2) (noted_of (places_at (places_lent places.now)) (H.history told.now))) }
        ensures sized { IfOk result (λ bytes. list_all event_fits (noted_of (places_at (places_lent places.now)) (H.history told.now)) ≡ true) }
    {
        let mut bytes = Vec::new(alloc);
        bytes.extend_from_slice(&self.opening)?;
        put_events(alloc, &mut bytes, told, places)?;
        Ok(bytes)
    }
}

// Puts a line for each event to the end. It counts the events of each job, so as to find the place of each ask among the job's.
fn put_events<H: Events>(
    alloc: Global,
    bytes: &mut Vec<u8>,
    told: &H,
    places: &[Option<&Places>],
) -> Result<(), AllocError>
    ensures text { OnOk result (bytes.new.items
        ≡ bytes.old.items ++ event_lines (Second V2) (noted_of (places_at (places_lent places.now)) (H.history told.now))) }
    ensures sized { OnOk result (list_all event_fits (noted_of (places_at (places_lent places.now)) (H.history told.now)) ≡ true) }
{
    let mut counts = Vec::new(alloc);
    'events: for at in 0..told.count() {
        let Some((job, ask, reply)) = told.event_at(at) else {
            unreachable!();
        };
        let before = count_one(&mut counts, job)?;
        let spot = spot_of(places, job, before)?;
        put_event(alloc, bytes, FORM, job, spot.as_ref(), ask, reply)?;
    }
    Ok(())
}

// Counts an event of a job, and gives how many there were before.
fn count_one(counts: &mut Vec<usize>, job: u32) -> Result<usize, AllocError>
    requires { count_in counts.old.items job + 1 < 2 ^ 64 }
    ensures before { IfOk result (λ before. before ≡ count_in counts.old.items job) }
    ensures counted { OnOk result ((k : ℕ) → count_in counts.new.items k ≡ with_one (count_in counts.old.items) job k) }
{
    let at = job as usize;
    make_count(counts, at)?;
    let before = counts[at];
    counts[at] = before + 1;
    Ok(before)
}

// There is a count at this place, which is none where there was none.
fn make_count(counts: &mut Vec<usize>, at: usize) -> Result<(), AllocError>
    requires { at < 2 ^ 32 }
    ensures same { OnOk result ((k : ℕ) → count_in counts.new.items k ≡ count_in counts.old.items k) }
    ensures there { OnOk result (at < length counts.new.items) }
{
    if counts.len() > at {
        return Ok(());
    }
    counts.resize(at + 1, 0)
}

// Where a job's ask came from, behind so many others, if it has a place.
fn spot_of(places: &[Option<&Places>], job: u32, before: usize) -> Result<Option<Spot>, AllocError>
    ensures { IfOk result (λ spot. spot ≡ spot_for (slice_index_or (places_at (places_lent places.now) job) before None)) }
{
    let Some(at) = (job as usize).checked_sub(1) else {
        return Ok(None);
    };
    match places.get(at) {
        None => Ok(None),
        Some(None) => Ok(None),
        Some(Some(own)) => spot_for(own.place(before)),
    }
}
