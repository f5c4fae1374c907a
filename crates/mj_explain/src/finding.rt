// Lost updates are looked for: the last look and the last setting of each name.

ghost use Rattle.std.specs.Prelude.{◌≡◌, ◌+◌, ◌<◌, All, IfOk, OnOk, length, take};
ghost use Rattle.mj_explain.specs.Events.{AreBegins};
ghost use Rattle.mj_explain.specs.Losses.{IsLoss, AreLosses, AreBefore};

use crate::events::is_touch_of;
use crate::looks::is_look_of;
use crate::losses::{Loss, is_loss};
use mj_ask::{Ask, Noted, SharedAsk};
use mj_globs::Texts;
use mj_store::{Access, Store};
use mj_subs::Name;
use mj_text::Text;
use std::alloc::{AllocError, Global};

// The greatest place that is noted: a trace has no more events.
const PLACES: usize = 4_294_967_295;

// How many of a job's last questions are looked at for one that told it that a name has no text.
const BACK: usize = 100;

// The last places outside transactions: for each job where it read each name, and where it asked by `$DATA`, `$ORDER` or `$QUERY`, in order; for each name
// where it was set last, and where the job that did had looked at it.
#[derive(Drop)]
struct Lasts {
    alloc: Global,
    reads: Vec<Texts>,
    asked: Vec<Vec<usize>>,
    sets: Texts,
    bases: Texts,
}

impl Lasts {
    // Nothing was read or set.
    fn new(alloc: Global) -> Lasts {
        Lasts {
            alloc,
            reads: Vec::new(alloc),
            asked: Vec::new(alloc),
            sets: Texts::new(alloc),
            bases: Texts::new(alloc),
        }
    }

    // Notes that a job read a name.
    fn note_read(&mut self, job: u32, name: &Name, place: usize) -> Result<(), AllocError> {
        let row = job as usize;
        while self.reads.len() <= row {
            self.reads.push(Texts::new(self.alloc))?;
        }
        note(self.alloc, &mut self.reads[row], name, place)
    }

    // Notes that a job asked by `$DATA`, `$ORDER` or `$QUERY`.
    fn note_asked(&mut self, job: u32, place: usize) -> Result<(), AllocError> {
        let row = job as usize;
        while self.asked.len() <= row {
            self.asked.push(Vec::new(self.alloc))?;
        }
        self.asked[row].push(place)?;
        Ok(())
    }

    // Where a job read a name.
    fn read_by(&self, job: u32, name: &Name) -> Option<usize> {
        let texts = self.reads.get(job as usize)?;
        noted(texts, name)
    }

    // Where a job looked at a name last.
    fn look_by(&self, events: &[Noted], job: u32, name: &Name) -> Option<usize> {
        let read = self.read_by(job, name);
        let told = match self.asked.get(job as usize) {
            None => None,
            Some(places) => told_in(events, job, name, places),
        };
        match (read, told) {
            (Some(read), Some(told)) => Some(read.max(told)),
            (Some(read), None) => Some(read),
            (None, told) => told,
        }
    }

    // What a job loses of what another set, where it sets a name behind this look.
    fn loss_at(&self, name: &Name, look: Option<usize>, place: usize) -> Option<Loss> {
        Some(Loss {
            first_look: noted(&self.bases, name)?,
            second_look: look?,
            first_write: noted(&self.sets, name)?,
            second_write: place,
        })
    }

    // Notes that a job set a name behind a look at it. What it had read of it counts for no other setting.
    fn note_set(
        &mut self,
        job: u32,
        name: &Name,
        look: Option<usize>,
        place: usize,
    ) -> Result<(), AllocError> {
        match look {
            Some(base) => note(self.alloc, &mut self.bases, name, base)?,
            None => forget(self.alloc, &mut self.bases, name)?,
        }
        if let Some(reads) = self.reads.get_mut(job as usize) {
            forget(self.alloc, reads, name)?;
        }
        note(self.alloc, &mut self.sets, name, place)
    }
}

// Where a job asked last what may tell of a name, if that is among its last questions, and told it that the name has no text.
fn told_in(events: &[Noted], job: u32, name: &Name, places: &[usize]) -> Option<usize> {
    for back in 0..places.len().min(BACK) {
        let place = places[places.len() - 1 - back];
        if is_touch_of(job, name, events.get(place)) {
            return if is_look_of(job, name, events.get(place)) {
                Some(place)
            } else {
                None
            };
        }
    }
    None
}

// Notes a place of a name.
fn note(alloc: Global, texts: &mut Texts, name: &Name, place: usize) -> Result<(), AllocError> {
    if place > PLACES {
        return Ok(());
    }
    texts.set(name, &Text::from_number(alloc, place as i64))
}

// Notes that a name has no place any more. Names below it keep theirs.
fn forget(alloc: Global, texts: &mut Texts, name: &Name) -> Result<(), AllocError> {
    if noted(texts, name).is_none() {
        return Ok(());
    }
    texts.set(name, &Text::from_number(alloc, -1))
}

// The place of a name that was noted.
fn noted(texts: &Texts, name: &Name) -> Option<usize> {
    let number = texts.value(name)?.number()?;
    if number < 0 {
        return None;
    }
    Some(number as usize)
}

/// Updates of a trace that were lost, in the order of the settings by which they were.
pub fn losses(
    alloc: Global,
    events: &[Noted],
    begins: &[Option<usize>],
) -> Result<Vec<Loss>, AllocError>
    requires begins { AreBegins events.now begins.now }
    ensures { IfOk result (λ found. AreLosses events.now found.items) }
{
    let mut lasts = Lasts::new(alloc);
    let mut losses = Vec::new(alloc);
    for (place, event) in events.iter().enumerate() {
        let begun = begins[place].is_some();
        let loss = look(&mut lasts, events, place, event, begun)?;
        add_loss(alloc, &mut losses, events, begins, place, loss)?;
    }
    Ok(losses)
}

// Notes what an event outside a transaction looks at or sets, and says of which update it may be the loss.
fn look(
    lasts: &mut Lasts,
    events: &[Noted],
    place: usize,
    event: &Noted,
    begun: bool,
) -> Result<Option<Loss>, AllocError> {
    if begun {
        return Ok(None);
    }
    let Ask::Shared(SharedAsk::Access(access)) = &event.ask else {
        return Ok(None);
    };
    match access {
        Access::Value(name) => {
            lasts.note_read(event.job, name.get(), place)?;
            Ok(None)
        }
        Access::Data(_) | Access::Order(_, _) | Access::Query(_) => {
            lasts.note_asked(event.job, place)?;
            Ok(None)
        }
        Access::Set(name, _) => {
            let name = name.get();
            let look = lasts.look_by(events, event.job, name);
            let loss = lasts.loss_at(name, look, place);
            lasts.note_set(event.job, name, look, place)?;
            Ok(loss)
        }
        _ => Ok(None),
    }
}

// Adds an update that was lost by the event at a place, if it was.
fn add_loss(
    alloc: Global,
    losses: &mut Vec<Loss>,
    events: &[Noted],
    begins: &[Option<usize>],
    place: usize,
    loss: Option<Loss>,
) -> Result<(), AllocError>
    requires begins { AreBegins events.now begins.now }
    ensures are { AreLosses events.now losses.old.items → AreBefore place losses.old.items → OnOk result (AreLosses events.now losses.new.items) }
    ensures before { AreBefore place losses.old.items → OnOk result (AreBefore (place + 1) losses.new.items) }
{
    let Some(loss) = loss else {
        return Ok(());
    };
    if loss.second_write != place {
        return Ok(());
    }
    if !is_loss(alloc, events, begins, loss)? {
        return Ok(());
    }
    losses.push(loss)?;
    Ok(())
}

/// The first of updates that were lost, at most so many, and how many there are.
pub fn first_of(mut losses: Vec<Loss>, most: usize) -> (Vec<Loss>, usize)
    ensures first { result.0.items ≡ take most losses.items }
    ensures all { result.1 ≡ length losses.items }
{
    let all = losses.len();
    losses.truncate(most);
    (losses, all)
}
