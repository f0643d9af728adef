// Changes of the settings.
ghost use Rattle.std.specs.Prelude.{◌≡◌, ◌≤◌, length};
ghost use Rattle.xbus.specs.Parts.{seen};
ghost use Rattle.decision.specs.Asked.{changing};
ghost use Rattle.settings.specs.View.{values_of};
ghost use Rattle.config.specs.Changed.{changed_of};
ghost use Rattle.session.specs.Serving.{storing, shown, wrong_value, adopted, changed_by};
ghost use Rattle.unit.specs.Of.{core_of, memory_by};
ghost use Rattle.unit.specs.Steps.{Sent, Stepped};

use crate::cores::Core;
use crate::sending::{Tray, refuse, reply};
use config::{MOST_ANSWER, answer, change};
use decision::{Change, Question};
use settings::Settings;
use store::Store;
use xbus::Frame;

// The option flag under which changes are not stored.
const UNSTORED: u32 = 0x01;

// The data byte of an Error: a wrong baud value, any other wrong value, a save that the store refused.
const WRONG_BAUD: u8 = 32;

const WRONG_VALUE: u8 = 33;

const NOT_SAVED: u8 = 40;

fn is_storing(settings: &Settings) -> bool
    ensures { result ≡ storing (values_of settings.now) }
{
    settings.flags() & UNSTORED == 0
}

fn wrong_value(asked: Change<'_>) -> u8
    ensures { result ≡ wrong_value (changing asked.entry) }
{
    match asked {
        Change::Baud(_) => WRONG_BAUD,
        _ => WRONG_VALUE,
    }
}

// The data of the acknowledgement: the outputs that are used, and nothing for other changes.
fn shown(asked: Change<'_>, settings: &Settings, out: &mut [u8; MOST_ANSWER]) -> usize
    ensures is { Sent (shown (changing asked.entry) (values_of settings.now)) result out.new }
    ensures few { result ≤ 128 }
{
    match asked {
        Change::Outputs(_) => answer(settings, 0, Question::Outputs, out).unwrap(),
        _ => 0,
    }
}

impl<S: Store> Core<S> {
    // New settings are saved before they take force, if storing is on under them, and acknowledged.
    fn adopt(
        &mut self,
        request: Frame<'_>,
        settings: &Settings,
        content: &[u8],
        tray: &mut Tray,
    ) -> usize
        requires { length content.now ≤ 1000 }
        ensures does { Stepped (adopted (seen request.entry) content.now (values_of settings.now) (core_of S.Store self.old)) (core_of S.Store self.new) result tray.new }
        ensures memory { S.Store.memory self.new.store ≡ memory_by S.Store (core_of S.Store self.old) (core_of S.Store self.new) self.old.store }
    {
        if is_storing(settings) && self.store.save(&settings.image()).is_err() {
            let identifier = request.header.identifier;
            return refuse(tray, request, &[NOT_SAVED, identifier, 0, 0, 0, 0]);
        }
        self.settings = *settings;
        reply(tray, request, content)
    }

    // Changes the settings, or says that the value is wrong.
    pub(crate) fn change(&mut self, request: Frame<'_>, asked: Change<'_>, tray: &mut Tray) -> usize
        ensures does { Stepped (changed_by (seen request.entry) (changing asked.entry) (changed_of (values_of self.old.settings) (changing asked.entry)) (core_of S.Store self.old)) (core_of S.Store self.new) result tray.new }
        ensures memory { S.Store.memory self.new.store ≡ memory_by S.Store (core_of S.Store self.old) (core_of S.Store self.new) self.old.store }
    {
        let Ok(settings) = change(&self.settings, asked) else {
            return refuse(tray, request, &[wrong_value(asked)]);
        };
        let mut out = [0; MOST_ANSWER];
        let len = shown(asked, &settings, &mut out);
        self.adopt(request, &settings, &out[..len], tray)
    }
}
