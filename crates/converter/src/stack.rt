// A converter is a pile: the promise holds of it over any device.
ghost use Rattle.std.specs.Prelude.{◌≡◌};
ghost use Rattle.pile.specs.Runs.{Promised};
ghost use Rattle.converter.specs.Converter.{view_of, time_of, ConverterOrder};
ghost use Rattle.converter.specs.Shows.{converter_fits};
ghost use Rattle.converter.specs.Stack.{p_kind, p_answer, p_makes, p_resets};

use crate::converter::Converter;
use crate::refusal::PRefusal;
use channel::device::QDevice;
use pile::pile::Pile;
use pile::played::play;

// Ask, drop and step; a reset is no call of a run.
#[derive(Clone, Copy, PartialEq, Eq, Debug)]
pub enum PCall {
    Ask(u8),
    Drop,
    Step,
}

impl<D: QDevice> Pile for Converter<D> {
    type Call = PCall;

    type Refusal = PRefusal;

    ghost view = { view_of D.QDevice };

    ghost timing = { time_of D.QDevice };

    ghost ordered = { ConverterOrder D.QDevice };

    ghost piled = { λ _. Unit {0} };

    ghost kind = { p_kind };

    ghost answers = { λ c x r. r ≡ p_answer c x };

    ghost makes = { p_makes D.QDevice };

    ghost resets = { p_resets D.QDevice };

    ghost fits = { converter_fits D.in_order };

    fn restart(&mut self) {
        self.reset();
    }

    fn make(&mut self, call: PCall) -> Result<(), PRefusal> {
        match call {
            PCall::Ask(state) => self.ask(state),
            PCall::Drop => self.drop(),
            PCall::Step => {
                self.step();
                Ok(())
            }
        }
    }
}

// Resets a converter and makes these calls, one after the other: the promise is kept, with each of the
// implementation's members by its name.
pub fn play_converter<D: QDevice>(power: &mut Converter<D>, calls: &[PCall])
    ensures { Promised (ConverterOrder D.QDevice) (view_of D.QDevice) (time_of D.QDevice) p_kind (p_makes D.QDevice) (p_resets D.QDevice) calls.now power.old power.new }
{
    play(power, calls)
}
