// Settings that are valid for their product, by their type. The modules below make, store and load them.
ghost use Rattle.std.specs.Prelude.{◌≡◌, true};
ghost use Rattle.settings.specs.Values.{recorded};
ghost use Rattle.settings.specs.Valid.{valid};

use crate::record::Record;
use mti::Product;

#[derive(Clone, Copy)]
pub struct Settings {
    product: Product,
    values: Record,
    ghost ok: { valid (recorded product values) ≡ true },
}

mod image;
mod loading;
mod making;
