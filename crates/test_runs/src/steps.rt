//! The boards between commands, and which of them a run that was stopped leaves.
use crate::miss::Miss;
use crate::outside::{no_faults, stops_at};
use crate::runs::{expect_status, has_said, run_after_crash, run_next};
use door_outside::FileId;
use mail_cli::Status;
use memory_outside::{ImageChoice, MemoryHost, MemoryShelf};
use std::alloc::Global;

/// Whether all data files of two hosts are equal.
fn same_files(one: &MemoryHost, other: &MemoryHost) -> bool {
    for number in 0..258 {
        if let Some(file) = FileId::new(number) {
            if file != FileId::journal() && one.file(file) != other.file(file) {
                return false;
            }
        }
    }
    true
}

/// A board, with what was said until then, and whether it was found in what a run left.
#[derive(Drop)]
struct Step {
    host: MemoryHost,
    is_found: bool,
}

/// The boards before a list of commands and after each of them.
#[derive(Drop)]
pub struct Steps {
    steps: Vec<Step>,
}

impl Steps {
    /// Carries out each line of a text on what the one before it has synced. Empty lines and comments are skipped.
    pub fn of(
        alloc: Global,
        start: MemoryHost,
        shelf: &mut MemoryShelf,
        lines: &str,
    ) -> Result<Steps, Miss> {
        let mut steps = Steps {
            steps: Vec::new(alloc),
        };
        steps.carry_out(alloc, start, shelf, lines)?;
        Ok(steps)
    }

    /// Adds the board before the lines of a text, and that after each of them.
    fn carry_out(
        &mut self,
        alloc: Global,
        start: MemoryHost,
        shelf: &mut MemoryShelf,
        lines: &str,
    ) -> Result<(), Miss> {
        self.add(start)?;
        for line in lines.lines() {
            if !line.is_empty() && !line.starts_with('#') {
                self.step(alloc, shelf, line)?;
            }
        }
        Ok(())
    }

    /// Carries out a line on what the last one has synced.
    fn step(&mut self, alloc: Global, shelf: &mut MemoryShelf, line: &str) -> Result<(), Miss> {
        let last = self.last()?;
        let (host, ended) = run_next(alloc, last, no_faults(alloc), shelf, line)?;
        expect_status(alloc, line, ended, Status::Done)?;
        self.add(host)
    }

    /// Adds a board behind the others.
    fn add(&mut self, host: MemoryHost) -> Result<(), Miss> {
        let is_found = false;
        self.steps.push(Step { host, is_found })?;
        Ok(())
    }

    /// The board before the commands.
    pub fn start(&self) -> Result<&MemoryHost, Miss> {
        Ok(&self.steps.first().ok_or("there is no board")?.host)
    }

    /// The board after all of them.
    pub fn last(&self) -> Result<&MemoryHost, Miss> {
        Ok(&self.steps.last().ok_or("there is no board")?.host)
    }

    /// After how many commands, at most, the data files are these.
    pub fn find(&mut self, host: &MemoryHost) -> Option<usize> {
        let mut found = None;
        for (place, step) in self.steps.iter_mut().enumerate() {
            if same_files(host, &step.host) {
                step.is_found = true;
                found = Some(place);
            }
        }
        found
    }

    /// Whether each board was found.
    pub fn all_found(&self) -> bool {
        self.steps.iter().all(|step| step.is_found)
    }

    /// Whether this is the place of the last board.
    fn is_last(&self, place: usize) -> bool {
        place.checked_add(1) == Some(self.steps.len())
    }

    /// Whether what a host said is a front of what was said once so many commands were carried out.
    fn has_begun(&self, host: &MemoryHost, place: usize) -> bool {
        match self.steps.get(place) {
            Some(step) => step.host.said().starts_with(host.said()),
            None => false,
        }
    }

    /// After how many commands the board of a host stands, where a `check` ended so: it found it whole, or not made.
    fn found(
        &mut self,
        host: &MemoryHost,
        last: &MemoryHost,
        ended: Status,
    ) -> Result<usize, Miss> {
        if ended != Status::Done && !has_said(host, last, "refused notmade\n") {
            return Err(Miss::Broken("check finds no whole board"));
        }
        Ok(self.find(host).ok_or("a crash leaves another board")?)
    }

    /// After how many commands a crash leaves the board: the next `check` finds it whole, or not made.
    pub fn after_crash(
        &mut self,
        alloc: Global,
        last: &MemoryHost,
        choice: ImageChoice,
        shelf: &mut MemoryShelf,
    ) -> Result<usize, Miss> {
        let plan = no_faults(alloc);
        let (host, ended) = run_after_crash(alloc, last, choice, plan, shelf, "check")?;
        self.found(&host, last, ended)
    }

    /// The same of a run that a call of the host stopped, which has said no more than these commands say.
    fn after_stop(
        &mut self,
        alloc: Global,
        stopped: &MemoryHost,
        (line, call): (&str, u32),
        choice: ImageChoice,
        shelf: &mut MemoryShelf,
    ) -> Result<usize, Miss> {
        let place = match self.after_crash(alloc, stopped, choice, shelf) {
            Err(Miss::Broken(why)) => return Err(Miss::stopped(alloc, line, call, why)?),
            found => found?,
        };
        if !self.has_begun(stopped, place) || stopped.starved() > 0 {
            let why = "more was said than is held";
            return Err(Miss::stopped(alloc, line, call, why)?);
        }
        Ok(place)
    }

    /// After how many commands the synced, the written and two mixed images of such a run leave the board: the fewest. Of
    /// the mixed ones the first has the seed 1, and the other that of the call.
    fn fewest_after_stop(
        &mut self,
        alloc: Global,
        stopped: &MemoryHost,
        stop: (&str, u32),
        shelf: &mut MemoryShelf,
    ) -> Result<usize, Miss> {
        let (_, call) = stop;
        let synced = self.after_stop(alloc, stopped, stop, ImageChoice::Synced, shelf)?;
        let written = self.after_stop(alloc, stopped, stop, ImageChoice::Written, shelf)?;
        let mixed = self.after_stop(alloc, stopped, stop, ImageChoice::Mixed(1), shelf)?;
        let other = self.after_stop(alloc, stopped, stop, ImageChoice::Mixed(call), shelf)?;
        Ok(synced.min(written).min(mixed).min(other))
    }

    /// Whether a line ended before the call that was to stop it, where its images leave the board after so many commands.
    fn has_ended(
        &self,
        alloc: Global,
        (line, call): (&str, u32),
        ended: Status,
        fewest: usize,
    ) -> Result<bool, Miss> {
        match ended {
            Status::DiskFault | Status::VoiceFault => Ok(false),
            Status::Done if self.all_found() && self.is_last(fewest) => Ok(true),
            _ => Err(Miss::stopped(alloc, line, call, "the stops leave fewer boards")?),
        }
    }

    /// Stops a line, which carries out these commands, at a call of the host: the synced, the written and two mixed images
    /// each hold a board between the commands, and no more was said than they say. Answers whether the line ended before
    /// that call. It has then carried out all of them, and each board was left by an earlier stop.
    pub fn expect_stop(
        &mut self,
        alloc: Global,
        shelf: &mut MemoryShelf,
        line: &str,
        call: u32,
    ) -> Result<bool, Miss> {
        let start = self.start()?;
        let plan = stops_at(alloc, Some(call));
        let (host, ended) = run_next(alloc, start, plan, shelf, line)?;
        let fewest = self.fewest_after_stop(alloc, &host, (line, call), shelf)?;
        self.has_ended(alloc, (line, call), ended, fewest)
    }

    /// Stops a line, which carries out these commands, at each call of the host in turn.
    pub fn expect_stops(
        &mut self,
        alloc: Global,
        shelf: &mut MemoryShelf,
        line: &str,
    ) -> Result<(), Miss> {
        for call in 1..2000 {
            if self.expect_stop(alloc, shelf, line, call)? {
                return Ok(());
            }
        }
        Err(Miss::stopped(alloc, line, 2000, "it doesn't end")?)
    }
}
