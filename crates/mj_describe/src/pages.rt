// A page that shows a run: a lane for each job, its events from above to below, and what was told of it in words.
//
// It has no script. What it says of events is escaped. Nothing is claimed of how it looks.

use crate::deadlocks::Standing;
use crate::draw::{arrow, bar, boxed, foot, head, label, lane, place, words_of};
use crate::wording::{Shown, Spot, put_spot};
use mj_ask::{Ask, Noted, SharedAsk};
use mj_explain::{Hold, Loss, Story, ToldClash, Wait, began_after, begins_of, wanted_by};
use mj_gfile::put_name;
use mj_subs::Name;
use mj_text::Text;
use mj_trace::{Form, event_line};
use std::alloc::{AllocError, Global};

/// The most events that are drawn.
const ROWS: usize = 2_000;

/// A name that a job held, the place of the event by which it came to hold it, and that of the event by which it gave it up.
pub type Held = (u32, Name, usize, usize);

/// Draws a run, with what is told of it in these words.
pub fn page(
    alloc: Global,
    shown: &Shown<'_>,
    standing: &Standing<'_>,
    past: &[Held],
    story: &Story,
    words: &[u8],
) -> Result<Vec<u8>, AllocError> {
    let mut page = Vec::new(alloc);
    let jobs = jobs_of(shown.events);
    let rows = shown.events.len().min(ROWS);
    head(&mut page, jobs, rows)?;
    for done in 0..jobs {
        lane(&mut page, done, rows)?;
    }
    let begins = begins_of(alloc, shown.events)?;
    let drawn = draw_transactions(&mut page, shown, &begins, rows);
    drop(begins);
    drawn?;
    draw_holds(&mut page, standing.holds, past, rows)?;
    draw_events(alloc, &mut page, shown, rows)?;
    draw_places(&mut page, shown.spots, rows)?;
    draw_clashes(&mut page, shown, &story.clashes, rows)?;
    draw_losses(&mut page, shown, &story.losses, rows)?;
    for waits in &story.deadlocks {
        draw_waits(&mut page, standing, waits, rows)?;
    }
    foot(&mut page)?;
    words_of(&mut page, words)?;
    Ok(page)
}

// The greatest number of a job, but no more than there may be.
fn jobs_of(events: &[Noted]) -> u32 {
    let mut jobs = 0;
    for event in events {
        if jobs < event.job && event.job <= 255 {
            jobs = event.job;
        }
    }
    jobs
}

// The number of the lane of an event's job.
fn lane_of(shown: &Shown<'_>, place: usize) -> u32 {
    match shown.events.get(place) {
        None => 0,
        Some(event) => event.job.saturating_sub(1),
    }
}

// Draws a box for each transaction, from its beginning to its end.
fn draw_transactions(
    page: &mut Vec<u8>,
    shown: &Shown<'_>,
    begins: &[Option<usize>],
    rows: usize,
) -> Result<(), AllocError> {
    for (place, event) in shown.events.iter().enumerate() {
        if place >= rows {
            break;
        }
        if matches!(begins.get(place), Some(None))
            && let Ask::Shared(SharedAsk::Begin(_)) = &event.ask
        {
            let end = end_of(shown.events, event.job, place, rows).unwrap_or(rows);
            boxed(page, event.job.saturating_sub(1), place, end)?;
        }
    }
    Ok(())
}

// Where the transaction ends that a job began at a place, if it does among so many events.
fn end_of(events: &[Noted], job: u32, begin: usize, rows: usize) -> Option<usize> {
    for place in begin..rows {
        let event = events.get(place)?;
        if begin < place
            && event.job == job
            && began_after(place, Some(begin), &event.ask).is_none()
        {
            return Some(place);
        }
    }
    None
}

// Draws a bar for each name that was held, from the event that took it to the one that gave it up.
fn draw_holds(
    page: &mut Vec<u8>,
    holds: &[Hold],
    past: &[Held],
    rows: usize,
) -> Result<(), AllocError> {
    for (number, (job, name, since, until)) in past.iter().enumerate() {
        if *since < rows {
            draw_hold(page, *job, name, number, *since, (*until).min(rows))?;
        }
    }
    for (number, (job, name, since)) in holds.iter().enumerate() {
        if *since < rows {
            draw_hold(page, *job, name, number, *since, rows)?;
        }
    }
    Ok(())
}

// Draws a bar for a name that a job holds.
fn draw_hold(
    page: &mut Vec<u8>,
    job: u32,
    name: &Name,
    number: usize,
    since: usize,
    until: usize,
) -> Result<(), AllocError> {
    let mut title = Vec::new(*page.allocator());
    let named = put_name(&mut title, name);
    let drawn = bar(
        page,
        b"held",
        job.saturating_sub(1),
        number % 8,
        since,
        until,
        &title,
    );
    drop(title);
    named?;
    drawn
}

// Draws the line of each event in the lane of its job, as the older form has it, without a place.
fn draw_events(
    alloc: Global,
    page: &mut Vec<u8>,
    shown: &Shown<'_>,
    rows: usize,
) -> Result<(), AllocError> {
    for (place, event) in shown.events.iter().enumerate() {
        if place >= rows {
            break;
        }
        let line = event_line(
            alloc,
            Form::First,
            event.job,
            None,
            &event.ask,
            &event.reply,
        )?;
        let number = shown.before.saturating_add(place).saturating_add(2);
        let drawn = label(page, event.job.saturating_sub(1), place, number, &line);
        drop(line);
        drawn?;
    }
    Ok(())
}

// Draws where in the routines each event comes from, if it comes from there.
fn draw_places(page: &mut Vec<u8>, spots: &[Spot], rows: usize) -> Result<(), AllocError> {
    for (row, spot) in spots.iter().enumerate() {
        if row >= rows {
            break;
        }
        if let Some((routine, line)) = spot {
            draw_place(page, row, routine, *line)?;
        }
    }
    Ok(())
}

// Draws a routine and a line of it.
fn draw_place(page: &mut Vec<u8>, row: usize, routine: &Text, line: u32) -> Result<(), AllocError> {
    let mut spot = Vec::new(*page.allocator());
    let named = put_spot(&mut spot, routine, line);
    let drawn = place(page, row, &spot);
    drop(spot);
    named?;
    drawn
}

// Draws an arrow from the change that gave a read another answer to the commit that clashed.
fn draw_clashes(
    page: &mut Vec<u8>,
    shown: &Shown<'_>,
    clashes: &[ToldClash],
    rows: usize,
) -> Result<(), AllocError> {
    for (number, clash) in clashes.iter().enumerate() {
        if let Some(why) = &clash.why
            && let Some(landing) = why.cause
            && clash.commit < rows
        {
            arrow(
                page,
                b"clash",
                number,
                lane_of(shown, landing.write),
                landing.write,
                lane_of(shown, clash.commit),
                clash.commit,
            )?;
        }
    }
    Ok(())
}

// Draws an arrow from what was set and lost to what was set over it.
fn draw_losses(
    page: &mut Vec<u8>,
    shown: &Shown<'_>,
    losses: &[Loss],
    rows: usize,
) -> Result<(), AllocError> {
    for (number, loss) in losses.iter().enumerate() {
        if loss.second_write < rows {
            arrow(
                page,
                b"loss",
                number.saturating_add(2),
                lane_of(shown, loss.first_write),
                loss.first_write,
                lane_of(shown, loss.second_write),
                loss.second_write,
            )?;
        }
    }
    Ok(())
}

// Draws a bar behind the last event for each name that a job of a deadlock waits for.
fn draw_waits(
    page: &mut Vec<u8>,
    standing: &Standing<'_>,
    waits: &[Wait],
    rows: usize,
) -> Result<(), AllocError> {
    for wait in waits {
        if let Some((job, _)) = standing.asked.get(wait.ask)
            && let Some(name) = wanted_by(standing.asked.get(wait.ask), wait.name)
        {
            let mut title = Vec::new(*page.allocator());
            let named = put_name(&mut title, name);
            let drawn = bar(
                page,
                b"wait",
                job.saturating_sub(1),
                8,
                rows,
                rows.saturating_add(2),
                &title,
            );
            drop(title);
            named?;
            drawn?;
        }
    }
    Ok(())
}
