// A frame that is served.
ghost use Rattle.std.specs.Prelude.{◌≡◌, ℕ, ◌≤◌, List, ◌++◌};
ghost use Rattle.xbus.specs.Parts.{seen};
ghost use Rattle.decision.specs.Asked.{asking};
ghost use Rattle.settings.specs.View.{values_of};
ghost use Rattle.session.specs.Sending.{configuration};
ghost use Rattle.session.specs.Serving.{addressed, measuring, performed, served};
ghost use Rattle.unit.specs.Of.{core_of, memory_by};
ghost use Rattle.unit.specs.Steps.{Sent, Stepped};

use crate::cores::Core;
use crate::sending::{CONFIGURATION, Tray, WAKE_UP, refuse, reply, send};
use config::{MOST_ANSWER, answer, configuration};
use decision::{Action, State, decide};
use session::Counts;
use store::Store;
use xbus::Frame;

// Whether the unit answers to the frame's address.
fn is_addressed(frame: Frame<'_>) -> bool
    ensures { result ≡ addressed (seen frame.entry) }
{
    matches!(frame.header.address, 0x01 | 0xFF)
}

impl<S: Store> Core<S> {
    // Measurement begins: tick number, phase and seconds start at 0.
    pub(crate) fn measure(&mut self)
        ensures does { core_of S.Store self.new ≡ measuring (core_of S.Store self.old) }
        ensures store { self.new.store ≡ self.old.store }
    {
        self.state = Some(State::Measurement);
        self.counts = Counts {
            number: 0,
            phase: 0,
            seconds: 0,
            ..self.counts
        };
    }

    // Writes Configuration behind the first `at` bytes.
    pub(crate) fn send_configuration(&self, device_id: u32, tray: &mut Tray, at: usize) -> usize
        requires { at ≤ 1000 }
        ensures { (xs : List ℕ) → Sent xs at tray.old → Sent (xs ++ configuration device_id (values_of self.now.settings)) result tray.new }
    {
        send(
            tray,
            at,
            CONFIGURATION,
            &configuration(&self.settings, device_id),
        )
    }

    // Does what a message asks for, and says how many bytes it wrote.
    #[tactic(auto, unfolding(session::specs::Serving::performed))]
    fn perform(
        &mut self,
        device_id: u32,
        request: Frame<'_>,
        action: Action<'_>,
        tray: &mut Tray,
    ) -> usize
        ensures does { Stepped (performed device_id (seen request.entry) (asking action.entry) (core_of S.Store self.old)) (core_of S.Store self.new) result tray.new }
        ensures memory { S.Store.memory self.new.store ≡ memory_by S.Store (core_of S.Store self.old) (core_of S.Store self.new) self.old.store }
    {
        match action {
            Action::Wake => {
                self.state = Some(State::Config);
                0
            }
            Action::Configure => {
                self.state = Some(State::Config);
                reply(tray, request, &[])
            }
            Action::Measure => {
                self.measure();
                let end = reply(tray, request, &[]);
                self.send_configuration(device_id, tray, end)
            }
            Action::Reset => {
                self.wake();
                let end = reply(tray, request, &[]);
                send(tray, end, WAKE_UP, &[])
            }
            Action::Ask(question) => {
                let mut out = [0; MOST_ANSWER];
                let len = answer(&self.settings, device_id, question, &mut out).unwrap();
                reply(tray, request, &out[..len])
            }
            Action::Set(asked) => self.change(request, asked, tray),
        }
    }

    // Serves a frame, and says how many bytes it wrote. One with another address gets no reply.
    #[tactic(auto, unfolding(session::specs::Serving::served))]
    pub(crate) fn serve(&mut self, device_id: u32, frame: Frame<'_>, tray: &mut Tray) -> usize
        ensures does { Stepped (served device_id (seen frame.entry) (core_of S.Store self.old)) (core_of S.Store self.new) result tray.new }
        ensures memory { S.Store.memory self.new.store ≡ memory_by S.Store (core_of S.Store self.old) (core_of S.Store self.new) self.old.store }
    {
        if !is_addressed(frame) {
            return 0;
        }
        let Some(state) = self.state else {
            return 0;
        };
        let product = self.settings.product();
        match decide(state, product, frame.header.identifier, frame.content) {
            Ok(action) => self.perform(device_id, frame, action, tray),
            Err(error) => refuse(tray, frame, &[error.number()]),
        }
    }
}
