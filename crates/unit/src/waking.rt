// Power, and what Reset does behind its reply.
ghost use Rattle.std.specs.Prelude.{◌≡◌};
ghost use Rattle.settings.specs.View.{values_of};
ghost use Rattle.session.specs.Waking.{loaded, woken};
ghost use Rattle.unit.specs.Of.{core_of};

use crate::cores::{Core, NO_COUNTS};
use decision::State;
use settings::Settings;
use store::{IMAGE, Loaded, Store};

impl<S: Store> Core<S> {
    // The settings of the image held, or the factory's if it is none or no image of valid settings.
    fn load(&mut self) -> Settings
        ensures is { values_of result ≡ loaded (values_of self.old.settings).product (S.Store.held self.old.store) }
        ensures stays { core_of S.Store self.new ≡ core_of S.Store self.old }
        ensures memory { S.Store.memory self.new.store ≡ S.Store.memory self.old.store }
    {
        let product = self.settings.product();
        let mut image = [0; IMAGE];
        let found = match self.store.load(&mut image) {
            Ok(Loaded::Held) => Settings::load(product, &image),
            _ => None,
        };
        found.unwrap_or_else(|| Settings::factory(product))
    }

    // Settings are loaded, WakeUp begins, and nothing is counted yet.
    #[tactic(auto, unfolding(session::specs::Waking::woken))]
    pub(crate) fn wake(&mut self)
        ensures does { core_of S.Store self.new ≡ woken (core_of S.Store self.old) }
        ensures memory { S.Store.memory self.new.store ≡ S.Store.memory self.old.store }
    {
        self.settings = self.load();
        self.state = Some(State::WakeUp);
        self.counts = NO_COUNTS;
    }
}
