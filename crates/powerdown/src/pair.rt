// A CPU that answers late and a DMA engine with jobs queued, under one distributor.
ghost use Rattle.std.specs.Prelude.{◌≡◌, ◌≤◌, IfOk, OnOk};
ghost use Rattle.channel.specs.Calls.{lower_answer, raise_answer};
ghost use Rattle.watch.specs.Phases.{ending_of};
ghost use Rattle.powerdown.specs.Rounds.{Seen, Asked, Unless};
ghost use Rattle.powerdown.specs.Design.{PairOrder, pair_time, pair_changing, pair_left, pair_stepped};
ghost use Rattle.powerdown.specs.Laws.{pair_pending};

use crate::print::{CPU, Change, DMA, print_edge};
use crate::rounds::{count_answer, see_through};
use channel::device::QDevice;
use channel::phase::Phase;
use joins::join::Distributor;
use leaves::timed::Timed;
use leaves::work::Work;
use leaves::worker::Worker;
use std::io;
use watch::edges::drive_edge;
use watch::phases::WatchedPhase;
use watch::settle::Watched;
use watch::tally::Tally;

#[derive(Drop)]
pub struct Pair {
    top: Distributor<Timed, Work>,
    ghost ordered: { ∥ PairOrder top ∥₁ },
    ghost bound: { (pair_time top).bound ≡ 6 },
}

// The phases of all three channels.
#[derive(Clone, Copy)]
struct Phases {
    top: Phase,
    cpu: Phase,
    dma: Phase,
}

// A step's edges in the order in which they came: drives, answers, and the distributor's own.
fn print_edges(rt: &impl Print, step: u32, old: Phases, new: Phases) -> io::Result<()> {
    let change = |name, old, new| Change { name, old, new };
    let top = change("top", old.top, new.top);
    let cpu = change("cpu", old.cpu, new.cpu);
    let dma = change("dma", old.dma, new.dma);
    for change in [cpu, dma] {
        change.print_drive(rt, step)?;
    }
    for change in [cpu, dma, top] {
        change.print_answer(rt, step)?;
    }
    Ok(())
}

impl Watched for Pair {
    ghost ready = { λ _. Unit {0} };

    ghost changing = { λ d. pair_changing d.top };

    ghost left = { λ d. pair_left d.top };

    ghost stepped = { λ d e. pair_stepped d.top e.top };

    ghost BOUND = { 6 };

    // Twice the greater of 3, the CPU's bound, and 2, the DMA engine's.
    const BOUND: u32 = 6;

    fn is_changing(&self) -> bool {
        self.top.phase().is_open()
    }

    fn tell_step(&mut self, rt: &impl Print, number: u32) -> io::Result<()> {
        let old = self.phases();
        self.top.step();
        print_edges(rt, number, old, self.phases())
    }

    ghost pending = { λ d _. pair_pending d.top d.ordered d.bound };
}

impl Pair {
    // The CPU answers a stop at its third step and wakes in two; the DMA engine does one job
    // in a request before it denies.
    fn new() -> Self {
        Pair {
            top: Distributor::new(Timed::new(CPU, 3, 2, 0), Work::new(DMA, 1)),
        }
    }

    fn phases(&self) -> Phases {
        Phases {
            top: self.top.phase(),
            cpu: self.top.first().phase(),
            dma: self.top.second().phase(),
        }
    }

    // Raises the design: wakes it, or takes a denied request back.
    fn raise(&mut self, rt: &impl Print, tally: &mut Tally) -> io::Result<()>
        ensures { OnOk result (Unless (raise_answer self.old.top.end.phase) tally.old tally.new (Seen 6 tally.old tally.new)) }
    {
        let old = self.top.phase();
        if self.top.raise().is_err() {
            return println!(rt; "  refused");
        }
        print_edge(rt, tally.steps(), "top", drive_edge(old, self.top.phase()))?;
        see_through(rt, self, tally)
    }

    // Asks for a stop and sees it answered.
    fn ask_stop(&mut self, rt: &impl Print, tally: &mut Tally) -> io::Result<()>
        ensures { OnOk result (Unless (lower_answer self.old.top.end.phase) tally.old tally.new (Asked 6 (ending_of self.new.top.end.phase self.new.top.end.denier) tally.old tally.new)) }
    {
        let old = self.top.phase();
        if self.top.lower().is_err() {
            return println!(rt; "  refused");
        }
        tally.request();
        print_edge(rt, tally.steps(), "top", drive_edge(old, self.top.phase()))?;
        see_through(rt, self, tally)?;
        count_answer(rt, tally, self.top.phase().ending(self.top.denier()))
    }

    // Lets the DMA engine work its jobs off at Run.
    fn drain(&mut self, rt: &impl Print, tally: &mut Tally) -> io::Result<()>
        ensures { tally.new.longest ≡ tally.old.longest }
    {
        let jobs = self.top.second().jobs();
        for _ in 0..jobs {
            self.watch_step(rt, tally)?;
        }
        let left = self.top.second().jobs();
        println!(rt; "  {jobs} jobs before, {left} after")
    }
}

// Wakes the pair, has a stop denied, withdraws it, drains the work and stops.
// No change took more steps than the bound.
pub fn power_down(rt: &impl Print) -> io::Result<Tally>
    ensures { IfOk result (λ t. t.longest ≤ 6) }
{
    let mut pair = Pair::new();
    let mut tally = Tally::new();
    println!(rt; "design: distributor top over cpu (timed 3 2 0) and dma (work 1)")?;
    println!(rt; "wake")?;
    pair.raise(rt, &mut tally)?;
    println!(rt; "queue 9 jobs for dma")?;
    let _ = pair.top.job_for(DMA, 9);
    println!(rt; "ask for a stop")?;
    pair.ask_stop(rt, &mut tally)?;
    println!(rt; "withdraw")?;
    pair.raise(rt, &mut tally)?;
    println!(rt; "drain the work")?;
    pair.drain(rt, &mut tally)?;
    println!(rt; "ask for a stop")?;
    pair.ask_stop(rt, &mut tally)?;
    Ok(tally)
}
