// Images: what is stored, and what is loaded.
use crate::served::serve;
use mti::Product;
use settings::{Entry, Settings};
use std::process::Abort;
use std::test::Fail;
use store::{Cell, IMAGE, Loaded, Store};

const PRODUCTS: [Product; 4] = [
    Product::Mti3,
    Product::Mti30,
    Product::Mti300,
    Product::MtiG710,
];

// The outputs of the MTi-3's factory settings, as an image has them.
const IDENTIFIERS: [u8; 8] = [0x20, 0x10, 0x10, 0x20, 0x10, 0x60, 0xE0, 0x20];

const FREQUENCIES: [u8; 8] = [0, 0x64, 0, 0x64, 0, 0x64, 0, 0x64];

// Both settings have the same values.
fn same(rt: &impl Abort, one: &Settings, other: &Settings) {
    let (a, b) = (one.values(), other.values());
    assert_eq!(rt; a.baud, b.baud);
    assert_eq!(rt; a.profile, b.profile);
    assert_eq!(rt; a.error_mode, b.error_mode);
    assert_eq!(rt; a.location, b.location);
    assert_eq!(rt; a.flags, b.flags);
    assert_eq!(rt; one.entries(), other.entries());
}

// Whether the product loads the image of its factory settings with another byte at the place.
fn loads_with(product: Product, place: usize, byte: u8) -> bool {
    let mut image = Settings::factory(product).image();
    if let Some(old) = image.get_mut(place) {
        *old = byte;
    }
    Settings::load(product, &image).is_some()
}

// The image that has these two columns behind the MTi-3's values of the factory.
fn image_of(identifiers: &[u8; 8], frequencies: &[u8; 8]) -> [u8; IMAGE] {
    let mut image = [0; IMAGE];
    image[..12].copy_from_slice(&[0x0A, 0x04, 0x02, 0x32, 0, 1, 0, 0, 0, 0, 0, 0]);
    image[12..20].copy_from_slice(identifiers);
    image[76..84].copy_from_slice(frequencies);
    image
}

#[test]
fn factory_image_of_mti_3(rt: HostRuntime) {
    let image = image_of(&IDENTIFIERS, &FREQUENCIES);
    assert_eq!(rt; Settings::factory(Product::Mti3).image(), image);
    assert!(rt; Settings::load(Product::Mti3, &image).is_some());
}

#[test]
fn columns_exchanged(rt: HostRuntime) {
    let image = image_of(&FREQUENCIES, &IDENTIFIERS);
    assert!(rt; Settings::load(Product::Mti3, &image).is_none());
}

#[test]
fn stored_and_loaded(rt: HostRuntime) -> Result<(), Fail> {
    for product in PRODUCTS {
        let settings = Settings::factory(product);
        let mut cell = Cell::new(1);
        cell.save(&settings.image())?;
        let mut image = [0; IMAGE];
        assert_eq!(rt; cell.load(&mut image), Ok(Loaded::Held));
        same(
            &rt,
            &Settings::load(product, &image).ok_or("none")?,
            &settings,
        );
    }
    Ok(())
}

#[test]
fn changed_and_loaded(rt: HostRuntime) -> Result<(), Fail> {
    let settings = serve(&Settings::factory(Product::MtiG710), 0x18, &[0x80])?;
    let settings = serve(&settings, 0xDA, &[0, 3])?;
    let settings = serve(&settings, 0x84, &[0xFE, 0xDC])?;
    let settings = serve(&settings, 0x64, &[0, 5])?;
    let settings = serve(&settings, 0x48, &[0, 0, 0, 0x84, 0, 0, 0, 0])?;
    let settings = serve(&settings, 0xC0, &[0x30, 0x10, 0, 50, 0x50, 0x23, 0, 7])?;
    let loaded = Settings::load(Product::MtiG710, &settings.image()).ok_or("none")?;
    same(&rt, &loaded, &settings);
    assert_eq!(rt; loaded.values().location, 0xFEDC);
    let wanted = [
        Entry {
            identifier: 0x3010,
            frequency: 50,
        },
        Entry {
            identifier: 0x5023,
            frequency: 5,
        },
    ];
    assert_eq!(rt; loaded.entries(), wanted.as_slice());
    Ok(())
}

#[test]
fn images_of_other_products(rt: HostRuntime) -> Result<(), Fail> {
    for (of, by, loads) in [
        (Product::Mti3, Product::Mti30, false),
        (Product::Mti3, Product::MtiG710, false),
        (Product::Mti30, Product::Mti3, false),
        (Product::Mti30, Product::Mti300, true),
        (Product::Mti300, Product::Mti30, true),
        (Product::MtiG710, Product::Mti3, false),
        (Product::MtiG710, Product::Mti300, false),
    ] {
        let image = Settings::factory(of).image();
        assert_eq!(rt; Settings::load(by, &image).is_some(), loads);
    }
    let pressure = serve(
        &Settings::factory(Product::Mti300),
        0xC0,
        &[0x30, 0x10, 0, 50],
    )?;
    assert!(rt; Settings::load(Product::Mti300, &pressure.image()).is_some());
    assert!(rt; Settings::load(Product::Mti30, &pressure.image()).is_none());
    Ok(())
}

#[test]
fn sizes(rt: HostRuntime) {
    for product in PRODUCTS {
        assert!(rt; loads_with(product, 0, 0x0A));
        assert!(rt; !loads_with(product, 0, 0x0B));
        assert!(rt; !loads_with(product, 1, 3));
        assert!(rt; !loads_with(product, 1, 8));
        assert!(rt; !loads_with(product, 1, 32));
        assert!(rt; !loads_with(product, 1, 33));
        assert!(rt; !loads_with(product, 1, 255));
    }
}

#[test]
fn unused_places(rt: HostRuntime) {
    for place in [20, 21, 74, 75, 84, 85, 138, 139] {
        assert!(rt; loads_with(Product::Mti3, place, 0));
        assert!(rt; !loads_with(Product::Mti3, place, 1));
    }
}

#[test]
fn values_in_their_places(rt: HostRuntime) {
    for (place, byte, loads) in [
        (2, 0x0B, true),
        (2, 0x0C, false),
        (3, 54, true),
        (3, 55, false),
        (4, 1, false),
        (5, 3, true),
        (5, 4, false),
        (6, 0xFF, true),
        (7, 0xFF, true),
        (8, 0x80, false),
        (11, 0x93, true),
        (11, 0x04, false),
        (13, 0x13, true),
        (13, 0x14, false),
        (15, 0x30, false),
        (77, 50, true),
        (77, 0, false),
        (77, 99, false),
        (76, 1, false),
    ] {
        assert_eq!(rt; loads_with(Product::Mti3, place, byte), loads, "at {place}");
    }
}

#[test]
fn other_lengths(rt: HostRuntime) -> Result<(), Fail> {
    let image = Settings::factory(Product::Mti3).image();
    let (_, most) = image.split_last().ok_or("no byte")?;
    assert!(rt; Settings::load(Product::Mti3, most).is_none());
    assert!(rt; Settings::load(Product::Mti3, &[]).is_none());
    assert!(rt; Settings::load(Product::Mti3, &[0x0A; 141]).is_none());
    Ok(())
}
