// Which settings a product can have.
ghost use Rattle.std.specs.Prelude.{◌≡◌};
ghost use Rattle.settings.specs.Values.{recorded};
ghost use Rattle.settings.specs.Valid.{valid_baud, first_profile, valid_profile, flag_bits, valid_flags, valid_entry, unlisted, valid_entries, valid};

use crate::record::{Entry, Record};
use mti::{Product, known};

fn valid_baud(baud: u8) -> bool
    ensures { result ≡ valid_baud baud }
{
    matches!(baud, 0x00..=0x0B | 0x80)
}

// The first of the product's five filter profiles.
pub(crate) fn first_profile(product: Product) -> u8
    ensures { result ≡ first_profile product }
{
    match product {
        Product::Mti3 => 50,
        Product::Mti30 | Product::Mti300 => 39,
        Product::MtiG710 => 1,
    }
}

fn valid_profile(product: Product, profile: u8) -> bool
    ensures { result ≡ valid_profile product profile }
{
    matches!(
        (product, profile),
        (Product::Mti3, 50..=54)
            | (Product::Mti30 | Product::Mti300, 39..=43)
            | (Product::MtiG710, 1..=5)
    )
}

fn flag_bits(product: Product) -> u32
    ensures { result ≡ flag_bits product }
{
    match product {
        Product::Mti3 => 0x93,
        Product::Mti30 | Product::Mti300 => 0x90,
        Product::MtiG710 => 0x94,
    }
}

fn valid_flags(product: Product, flags: u32) -> bool
    ensures { result ≡ valid_flags product flags }
{
    flags & flag_bits(product) == flags
}

fn valid_entry(product: Product, entry: Entry) -> bool
    ensures { result ≡ valid_entry product entry }
{
    known(entry.identifier).is_some_and(|output| {
        output.channel.offered_by(product)
            && entry.frequency > 0
            && output.channel.max_hz % entry.frequency == 0
    })
}

// Whether no entry is of the channel.
fn is_unlisted(channel: u16, entries: &[Entry]) -> bool
    ensures { result ≡ unlisted channel entries.now }
{
    entries.iter().all(|entry| entry.channel() != channel)
}

fn valid_entries(product: Product, entries: &[Entry]) -> bool
    ensures { result ≡ valid_entries product entries.now }
{
    entries.iter().enumerate().all(|(i, entry)| {
        valid_entry(product, *entry) && is_unlisted(entry.channel(), &entries[i + 1..])
    })
}

// Whether the product can have these values.
#[tactic(auto, unfolding(crate::specs::Valid::valid))]
pub(crate) fn is_valid(product: Product, values: &Record) -> bool
    ensures { result ≡ valid (recorded product values.now) }
{
    // Every location is allowed.
    let &Record {
        baud,
        profile,
        error_mode,
        location: _location,
        flags,
        ref entries,
    } = values;
    valid_baud(baud)
        && valid_profile(product, profile)
        && error_mode <= 3
        && valid_flags(product, flags)
        && valid_entries(product, entries.as_slice())
}
