// Changes of settings.
ghost use Rattle.std.specs.Prelude.{◌≡◌};
ghost use Rattle.std.specs.Option.{option_map};
ghost use Rattle.std.specs.Result.{result_ok};
ghost use Rattle.settings.specs.View.{values_of};
ghost use Rattle.decision.specs.Asked.{changing};
ghost use Rattle.config.specs.Changed.{changed_of};
ghost use Rattle.config.specs.After.{ChangedSaid};

use crate::outputs::asked_outputs;
use decision::Change;
use settings::{Record, Settings};

// A value that the settings cannot have.
#[derive(Clone, Copy, PartialEq, Eq, Debug)]
pub struct WrongValue;

// The settings after the change, if the product can have them.
#[tactic(auto, using(crate::proofs::Exacts::changed_said), unfolding(crate::specs::Changed::changed_of))]
pub fn change(settings: &Settings, asked: Change<'_>) -> Result<Settings, WrongValue>
    ensures is { option_map values_of (result_ok result) ≡ changed_of (values_of settings.now) (changing asked.entry) }
    ensures said { ChangedSaid }
{
    let product = settings.product();
    let old = settings.values();
    let values = match asked {
        Change::Baud(baud) => Record { baud, ..old },
        Change::ErrorMode(error_mode) => Record { error_mode, ..old },
        Change::Location(location) => Record { location, ..old },
        // No product has a profile that is no byte.
        Change::Profile(profile) => Record {
            profile: u8::try_from(profile).map_err(|_| WrongValue)?,
            ..old
        },
        // Clear first, then Set.
        Change::Flags { set, clear } => Record {
            flags: (old.flags & !clear) | set,
            ..old
        },
        Change::Outputs(bytes) => Record {
            entries: asked_outputs(bytes).ok_or(WrongValue)?,
            ..old
        },
        Change::Factory => return Ok(Settings::factory(product)),
    };
    Settings::checked(product, &values).ok_or(WrongValue)
}
