// A P-Channel end over any Q device.
pub use crate::refusal::PRefusal;
use crate::rules::{Mode, drive_for, next_phase, next_state, note_for, task_for};
use channel::device::QDevice;
use channel::pphase::PPhase;
use channel::signals::Signals;
use joins::drive::make_drive;
use joins::rules::heard_of;

#[derive(Drop)]
pub struct Converter<D> {
    device: D,
    phase: PPhase,
    state: u8,
    // the state of the latest ask
    asked: u8,
    denier: Option<u32>,
}

impl<D> Converter<D> {
    ghost use Rattle.std.specs.Prelude.{◌≡◌};
    ghost use Rattle.channel.specs.PPhases.{p_levels};

    pub fn phase(&self) -> PPhase
        ensures { result ≡ self.now.phase }
    {
        self.phase // of the P-Channel
    }

    pub fn state(&self) -> u8
        ensures { result ≡ self.now.state }
    {
        self.state // the one reached
    }

    // The tag of the first leaf that denied the latest ask, if one did.
    pub fn denier(&self) -> Option<u32>
        ensures { result ≡ self.now.denier }
    {
        self.denier // of the latest ask
    }

    // PREQ, PACCEPT, PDENY.
    pub fn levels(&self) -> (bool, bool, bool)
        ensures { result ≡ p_levels self.now.phase }
    {
        self.phase.levels()
    }

    pub fn device(&self) -> &D
        ensures { result.now ≡ self.now.device }
    {
        &self.device
    }
}

impl<D: QDevice> Converter<D> {
    ghost use Rattle.std.specs.Prelude.{◌≡◌, ◌*◌, true, is_ok, OnErr};
    ghost use Rattle.channel.specs.Means.{tags};
    ghost use Rattle.channel.specs.Calls.{Reset};
    ghost use Rattle.pile.specs.Calls.{stop, back, tick};
    ghost use Rattle.pile.specs.Views.{Begun};
    ghost use Rattle.converter.specs.Converter.{ask_answer, drop_answer, AskMade, DropMade, StepMade, StartMade, ConverterOrder, Links, view_of, time_of};

    // A converter over a device, which it resets. It starts at Stable in state 0.
    pub fn new(mut device: D) -> Self
        ensures made { StartMade D.QDevice device result }
        ensures begun { Begun (view_of D.QDevice result) }
        ensures kept { ConverterOrder D.QDevice result }
        ensures leaves { tags (D.means result.device).leaves ≡ tags (D.means device).leaves }
        ensures bound { (time_of D.QDevice result).bound ≡ 2 * (D.timing device).bound }
    {
        device.reset();
        Converter {
            device,
            phase: PPhase::Stable,
            state: 0,
            asked: 0,
            denier: None,
        }
    }

    // Asks for a power state.
    pub fn ask(&mut self, state: u8) -> Result<(), PRefusal>
        ensures answer { result ≡ ask_answer self.old.phase state }
        ensures exact { AskMade state self.old self.new }
        ensures refused { OnErr result (self.new ≡ self.old) }
        ensures linked { Links D.QDevice stop (is_ok result) self.old self.new }
    {
        match (self.phase, Mode::from(state)) {
            (PPhase::Stable, Mode::Unused) => Err(PRefusal::StateUnused),
            (PPhase::Stable, _) => {
                self.phase = PPhase::Request;
                self.asked = state;
                self.denier = None;
                Ok(())
            }
            _ => Err(PRefusal::AskNotAtStable),
        }
    }

    // Takes PREQ back once the ask is answered.
    pub fn drop(&mut self) -> Result<(), PRefusal>
        ensures answer { result ≡ drop_answer self.old.phase }
        ensures exact { DropMade self.old self.new }
        ensures refused { OnErr result (self.new ≡ self.old) }
        ensures linked { Links D.QDevice back (is_ok result) self.old self.new }
    {
        self.phase = match self.phase {
            PPhase::Accept => PPhase::Complete,
            PPhase::Denied => PPhase::Continue,
            _ => return Err(PRefusal::DropNotAnswered),
        };
        Ok(())
    }

    // Lets one step pass.
    pub fn step(&mut self)
        ensures exact { StepMade D.QDevice self.old self.new }
        ensures linked { Links D.QDevice tick true self.old self.new }
    {
        let from = self.phase;
        let task = task_for(from, self.state.into(), self.asked.into());
        let drive = drive_for(task, self.denier, self.device.phase());
        make_drive(&mut self.device, drive);
        self.device.step();
        self.denier = note_for(task, self.denier, heard_of(self.device.end()));
        self.phase = next_phase(from, task, self.denier, self.device.phase());
        self.state = next_state(from, self.phase, self.state, self.asked);
    }

    // Leads from anything to Stable in state 0, with the device reset.
    pub fn reset(&mut self)
        ensures exact { StartMade D.QDevice self.old.device self.new }
        ensures kept { ConverterOrder D.QDevice self.new }
        ensures device { Reset (D.means self.old.device) (D.means self.new.device) }
        ensures bound { (time_of D.QDevice self.new).bound ≡ (time_of D.QDevice self.old).bound }
    {
        self.device.reset();
        self.phase = PPhase::Stable;
        self.state = 0;
        self.asked = 0;
        self.denier = None;
    }
}
