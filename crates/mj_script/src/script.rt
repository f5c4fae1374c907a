// What runs begin with.

ghost use Rattle.std.specs.Prelude.{◌≡◌, ◌≢◌, ◌≤◌, [], true, length, All, IfOk, IfErr, OnOk};
ghost use Rattle.mj_text.specs.declared.limit.Limit.TheVariants.{V2};
ghost use Rattle.mj_dev.specs.Shelves.{principal, left_of};
ghost use Rattle.mj_files.specs.Named.{with_principals};
ghost use Rattle.mj_jobs.specs.Rows.{rows_limit};
ghost use Rattle.mj_load.specs.Image.{Loaded, IsWithinLimits};
ghost use Rattle.mj_core.specs.Shown.{begun};
ghost use Rattle.mj_sys.specs.Opening.{are_bare};
ghost use Rattle.mj_sys.specs.Shared.{are_global};
ghost use Rattle.mj_script.specs.Scripts.{CanBeLoaded, IsReadFrom, IsImageOf, IsSourceUnread, IsUnread, source_of, sources_of, supply_names};
ghost use Rattle.mj_script.specs.Scripts.{opening_in, pool_in};

use mj_ask::Start;
use mj_ast::Routine;
use mj_dev::{Memory, Pool};
use mj_files::put;
use mj_globs::Globals;
use mj_jobs::ROWS_LIMIT;
use mj_load::{Image, load};
use mj_rou::{LoadError, read_or_refused};
use mj_run::{Jobs, begin_jobs};
use mj_sessions::Sessions;
use mj_sys::Opening;
use mj_text::{Limit, Text};
use std::alloc::{AllocError, Global};
use std::marker::Model;

/// A routine, as it is read.
#[derive(Drop)]
pub struct Source {
    pub name: Vec<u8>,
    /// the bytes of its file
    pub bytes: Vec<u8>,
}

/// A device beside the principal ones: its name, and the bytes whose lines it gives.
#[derive(Drop)]
pub struct Supply {
    pub name: Text,
    pub bytes: Vec<u8>,
}

/// Why routines aren't loaded.
#[derive(Drop)]
pub enum Unread {
    /// one is refused
    Routine(LoadError),
    /// one has the name of an earlier one
    Twice { name: Text },
    /// an allocation was refused
    Memory,
}

/// What each run begins with, beside the globals: routines that can be loaded, where the first jobs start, the bytes whose lines the first job reads, and the
/// devices beside the principal ones.
#[derive(Drop)]
pub struct Script {
    sources: Vec<Source>,
    starts: Vec<Start>,
    input: Vec<u8>,
    supplies: Vec<Supply>,
}

impl Model for Script {
    ghost use Rattle.std.specs.Prelude.{◌≡◌, ◌≢◌, ◌≤◌, true, length, All};
    ghost use Rattle.mj_dev.specs.Shelves.{principal};
    ghost use Rattle.mj_jobs.specs.Rows.{rows_limit};
    ghost use Rattle.mj_sys.specs.Opening.{are_bare};
    ghost use Rattle.mj_script.specs.Scripts.{Scripted, CanBeLoaded, sources_of, supply_names};

    ghost Value = { Scripted };

    ghost view = { λ s. record {
      sources = sources_of s.sources.items;
      starts = s.starts.items;
      devices = supply_names s.supplies.items;
    } };

    ghost invariant = { λ s. record {
      loads : CanBeLoaded (sources_of s.sources.items);
      bare : are_bare s.starts.items ≡ true;
      some : 1 ≤ length s.starts.items;
      few : length s.starts.items ≤ rows_limit;
      other : All (λ name. name ≢ principal) (supply_names s.supplies.items);
    } };
}

impl Script {
    /// The script of these, whose routines are loaded once to see that they can be.
    pub fn new(
        alloc: Global,
        sources: Vec<Source>,
        starts: Vec<Start>,
        input: Vec<u8>,
        supplies: Vec<Supply>,
    ) -> Result<Script, Unread>
        requires bare { are_bare starts.items ≡ true }
        requires some { 1 ≤ length starts.items }
        requires few { length starts.items ≤ rows_limit }
        requires other { All (λ name. name ≢ principal) (supply_names supplies.items) }
        ensures sources { IfOk result (λ script. script.sources ≡ sources_of sources.items) }
        ensures starts { IfOk result (λ script. script.starts ≡ starts.items) }
        ensures devices { IfOk result (λ script. script.devices ≡ supply_names supplies.items) }
        ensures unread { IfErr result (IsUnread (sources_of sources.items)) }
    {
        match loaded(alloc, &sources) {
            Ok(image) => {
                drop(image);
                Ok(Script {
                    sources,
                    starts,
                    input,
                    supplies,
                })
            }
            Err(why) => Err(why),
        }
    }

    // Its routines, loaded. They can be, so that memory alone may be wanting.
    fn image(&self, alloc: Global) -> Result<Image, AllocError>
        ensures value { IfOk result (IsImageOf self.now.sources) }
        ensures long { IfOk result (λ image. image.bounds.limit ≡ V2) }
    {
        read_or_refused();
        match loaded(alloc, &self.sources) {
            Ok(image) => Ok(image),
            Err(Unread::Memory) => Err(AllocError),
            Err(Unread::Routine(_)) => unreachable!(),
            Err(Unread::Twice { .. }) => unreachable!(),
        }
    }

    // Its devices, of which nothing was asked yet. There is a principal one for each of its jobs.
    fn pool(&self, alloc: Global) -> Result<Pool<Memory>, AllocError>
        ensures value { IfOk result (λ pool. pool ≡ pool_in self.now) }
        ensures fits { IfOk result (λ pool. length self.now.starts ≤ left_of principal pool) }
    {
        let mut pool = Pool::new(alloc);
        let first = self.input.clone()?;
        add_principals(alloc, &mut pool, ROWS_LIMIT as u32, first)?;
        'supplies: for supply in &self.supplies {
            let bytes = supply.bytes.clone()?;
            put(&mut pool, &supply.name, Memory::new(alloc, bytes))?;
        }
        Ok(pool)
    }

    // Where its first jobs start: one at least, no more than there may be, and none with values.
    fn starts(&self, alloc: Global) -> Result<Vec<Start>, AllocError>
        ensures value { IfOk result (λ starts. starts.items ≡ self.now.starts) }
        ensures bare { IfOk result (λ starts. are_bare starts.items ≡ true) }
        ensures some { IfOk result (λ starts. 1 ≤ length starts.items) }
        ensures few { IfOk result (λ starts. length starts.items ≤ rows_limit) }
    {
        let mut starts = Vec::new(alloc);
        'starts: for start in &self.starts {
            starts.push(start.try_clone()?)?;
        }
        Ok(starts)
    }
}

/// The jobs of a script at their beginning, over a copy of these globals.
pub fn begin<O: Opening>(
    alloc: Global,
    script: &Script,
    globals: &Globals,
) -> Result<Jobs<Memory, Sessions<Memory>, O>, AllocError>
    requires opening { opening_in script.now globals.now.content ≡ O.opening }
    requires global { are_global globals.now.content ≡ true }
    ensures { IfOk result (λ jobs. (image : Loaded) × IsImageOf script.now.sources image × (jobs ≡ begun image)) }
{
    let pool = script.pool(alloc)?;
    let starts = script.starts(alloc)?;
    let globals = globals.try_clone()?;
    let image = script.image(alloc)?;
    match begin_jobs::<Memory, O>(alloc, image, globals, pool, starts) {
        Ok(jobs) => Ok(jobs),
        Err(_) => Err(AllocError),
    }
}

// Reads the routines of these sources in order, and loads them, with the greater limit of texts. The first that is refused ends it.
fn loaded(alloc: Global, sources: &[Source]) -> Result<Image, Unread>
    ensures ok { IfOk result (IsImageOf (sources_of sources.now)) }
    ensures long { IfOk result (λ image. image.bounds.limit ≡ V2) }
    ensures apart { IfOk result (λ image. CanBeLoaded (sources_of sources.now)) }
    ensures unread { IfErr result (IsUnread (sources_of sources.now)) }
{
    let mut routines = Vec::new(alloc);
    'sources: for source in sources {
        let routine = routine_of(alloc, source)?;
        if routines.push(routine).is_err() {
            return Err(Unread::Memory);
        }
    }
    match load(alloc, routines, Limit::V2) {
        Ok(image) => Ok(image),
        Err(mj_load::LoadError::Memory { .. }) => Err(Unread::Memory),
        Err(mj_load::LoadError::Twice { name }) => Err(Unread::Twice { name }),
    }
}

// The routine of a source.
fn routine_of(alloc: Global, source: &Source) -> Result<Routine, Unread>
    ensures within { IfOk result IsWithinLimits }
    ensures read { IfOk result (IsReadFrom (source_of source.now)) }
    ensures unread { IfErr result (IsSourceUnread (source_of source.now)) }
{
    match mj_rou::read(alloc, &source.name, &source.bytes) {
        Ok(routine) => Ok(routine),
        Err(LoadError::Memory) => Err(Unread::Memory),
        Err(refusal) => Err(Unread::Routine(refusal)),
    }
}

// Adds so many principal devices, of which the first gives the lines of these bytes.
fn add_principals(
    alloc: Global,
    pool: &mut Pool<Memory>,
    count: u32,
    first: Vec<u8>,
) -> Result<(), AllocError>
    requires none { pool.old ≡ [] }
    ensures added { OnOk result (pool.new ≡ with_principals count) }
{
    let name = Text::from_number(alloc, 0);
    let mut first = Some(first);
    'principals: for _ in 0..count {
        let bytes = match first.take() {
            Some(bytes) => bytes,
            None => Vec::new(alloc),
        };
        put(pool, &name, Memory::new(alloc, bytes))?;
    }
    Ok(())
}
