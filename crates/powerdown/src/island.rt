// A power island: two masters stop before the memory that they use and return after it,
// and a converter lets a P-Channel controller ask for a power state.
ghost use Rattle.std.specs.Prelude.{◌≡◌, ◌≤◌, IfOk, OnOk};
ghost use Rattle.converter.specs.Converter.{ask_answer, drop_answer};
ghost use Rattle.watch.specs.Phases.{p_ending_of};
ghost use Rattle.powerdown.specs.Rounds.{Seen, Asked, Unless};
ghost use Rattle.powerdown.specs.Design.{IslandOrder, island_time, island_changing, island_left, island_stepped};
ghost use Rattle.powerdown.specs.Laws.{island_pending};

use crate::print::{CPU, Change, DMA, MEM, print_edge};
use crate::rounds::{count_answer, see_through};
use channel::device::QDevice;
use channel::phase::Phase;
use channel::pphase::PPhase;
use converter::converter::Converter;
use joins::join::{Distributor, Sequencer};
use leaves::timed::Timed;
use leaves::work::Work;
use std::io;
use watch::edges::p_edge;
use watch::phases::WatchedPhase;
use watch::settle::Watched;
use watch::tally::Tally;

const STOP: u8 = 0;

const RUN: u8 = 8;

#[derive(Drop)]
pub struct Island {
    power: Converter<Sequencer<Distributor<Timed, Work>, Timed>>,
    ghost ordered: { ∥ IslandOrder power ∥₁ },
    ghost bound: { (island_time power).bound ≡ 32 },
}

// The phases of all six channels.
#[derive(Clone, Copy)]
struct Phases {
    power: PPhase,
    row: Phase,
    masters: Phase,
    cpu: Phase,
    dma: Phase,
    mem: Phase,
}

// A step's edges: each layer's drives before those of the layer below, and its answers after them.
fn print_edges(rt: &impl Print, step: u32, old: Phases, new: Phases) -> io::Result<()> {
    let change = |name, old, new| Change { name, old, new };
    let row = change("row", old.row, new.row);
    let masters = change("masters", old.masters, new.masters);
    let cpu = change("cpu", old.cpu, new.cpu);
    let dma = change("dma", old.dma, new.dma);
    let mem = change("mem", old.mem, new.mem);
    for change in [row, masters, mem, cpu, dma] {
        change.print_drive(rt, step)?;
    }
    for change in [cpu, dma, masters, mem, row] {
        change.print_answer(rt, step)?;
    }
    print_edge(rt, step, "power", p_edge(old.power, new.power))
}

impl Watched for Island {
    ghost ready = { λ _. Unit {0} };

    ghost changing = { λ d. island_changing d.power };

    ghost left = { λ d. island_left d.power };

    ghost stepped = { λ d e. island_stepped d.power e.power };

    ghost BOUND = { 32 };

    // Twice the sequencer's bound, which is twice the sum of 6, the masters', and 2, the memory's.
    const BOUND: u32 = 32;

    fn is_changing(&self) -> bool {
        self.power.phase().is_open()
    }

    fn tell_step(&mut self, rt: &impl Print, number: u32) -> io::Result<()> {
        let old = self.phases();
        self.power.step();
        print_edges(rt, number, old, self.phases())
    }

    ghost pending = { λ d _. island_pending d.power d.ordered d.bound };
}

impl Island {
    // The CPU denies every second request that reaches it.
    fn new() -> Self {
        let masters = Distributor::new(Timed::new(CPU, 3, 2, 2), Work::new(DMA, 1));
        Island {
            power: Converter::new(Sequencer::new(masters, Timed::new(MEM, 2, 1, 0))),
        }
    }

    fn phases(&self) -> Phases {
        let row = self.power.device();
        let masters = row.first();
        Phases {
            power: self.power.phase(),
            row: row.phase(),
            masters: masters.phase(),
            cpu: masters.first().phase(),
            dma: masters.second().phase(),
            mem: row.second().phase(),
        }
    }

    // Asks for a power state and sees it answered.
    fn ask(&mut self, rt: &impl Print, tally: &mut Tally, state: u8) -> io::Result<()>
        ensures { OnOk result (Unless (ask_answer self.old.power.phase state) tally.old tally.new (Asked 32 (p_ending_of self.new.power.phase self.new.power.denier) tally.old tally.new)) }
    {
        println!(rt; "ask for state {state}")?;
        let old = self.power.phase();
        if self.power.ask(state).is_err() {
            return println!(rt; "  refused");
        }
        tally.request();
        print_edge(rt, tally.steps(), "power", p_edge(old, self.power.phase()))?;
        see_through(rt, self, tally)?;
        count_answer(rt, tally, self.power.phase().ending(self.power.denier()))
    }

    // Takes the request back once it is answered.
    fn take_back(&mut self, rt: &impl Print, tally: &mut Tally) -> io::Result<()>
        ensures { OnOk result (Unless (drop_answer self.old.power.phase) tally.old tally.new (Seen 32 tally.old tally.new)) }
    {
        let old = self.power.phase();
        if self.power.drop().is_err() {
            return println!(rt; "  refused");
        }
        print_edge(rt, tally.steps(), "power", p_edge(old, self.power.phase()))?;
        see_through(rt, self, tally)?;
        println!(rt; "  state {}", self.power.state())
    }
}

// Runs the island, stops it, runs it again, has a stop denied, and stops it.
// No change took more steps than the bound.
pub fn power_down(rt: &impl Print) -> io::Result<Tally>
    ensures { IfOk result (λ t. t.longest ≤ 32) }
{
    let mut island = Island::new();
    let mut tally = Tally::new();
    println!(rt; "design: converter power over sequencer row of masters, then mem (timed 2 1 0)")?;
    println!(rt; "        masters: distributor over cpu (timed 3 2 2) and dma (work 1)")?;
    for state in [RUN, STOP, RUN, STOP, STOP] {
        island.ask(rt, &mut tally, state)?;
        island.take_back(rt, &mut tally)?;
    }
    Ok(tally)
}
