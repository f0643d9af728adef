// Baud codes, profiles, error modes, locations and the factory's values.
use crate::served::{Refusal, WRONG_LENGTH, WRONG_VALUE, serve};
use decision::MessageError;
use mti::Product;
use settings::Settings;
use std::test::Fail;

// The product's baud code after the message on factory settings.
fn baud_after(product: Product, content: &[u8]) -> Result<u8, Refusal> {
    Ok(
        serve(&Settings::factory(product), 0x18, content)?
            .values()
            .baud,
    )
}

// The profile after it.
fn profile_after(product: Product, content: &[u8]) -> Result<u8, Refusal> {
    Ok(
        serve(&Settings::factory(product), 0x64, content)?
            .values()
            .profile,
    )
}

// The error mode after it.
fn error_mode_after(product: Product, content: &[u8]) -> Result<u16, Refusal> {
    Ok(
        serve(&Settings::factory(product), 0xDA, content)?
            .values()
            .error_mode,
    )
}

// The location ID after it.
fn location_after(product: Product, content: &[u8]) -> Result<u16, Refusal> {
    Ok(
        serve(&Settings::factory(product), 0x84, content)?
            .values()
            .location,
    )
}

#[test]
fn baud_codes(rt: HostRuntime) {
    for baud in [0x00, 0x02, 0x0A, 0x0B, 0x80] {
        assert_eq!(rt; baud_after(Product::Mti30, &[baud]), Ok(baud));
    }
    for baud in [0x0C, 0x7F, 0x81, 0xFF] {
        assert_eq!(rt; baud_after(Product::Mti30, &[baud]), Err(WRONG_VALUE));
    }
    assert_eq!(rt; baud_after(Product::Mti30, &[0, 2]), Err(WRONG_LENGTH));
}

#[test]
fn profiles_of_the_products(rt: HostRuntime) {
    for (product, first) in [
        (Product::Mti3, 50),
        (Product::Mti30, 39),
        (Product::Mti300, 39),
        (Product::MtiG710, 1),
    ] {
        for profile in [first, first + 1, first + 4] {
            assert_eq!(rt; profile_after(product, &[0, profile]), Ok(profile));
        }
        for profile in [first - 1, first + 5] {
            assert_eq!(rt; profile_after(product, &[0, profile]), Err(WRONG_VALUE));
        }
    }
}

#[test]
fn profiles_of_neighbours(rt: HostRuntime) {
    assert_eq!(rt; profile_after(Product::Mti3, &[0, 39]), Err(WRONG_VALUE));
    assert_eq!(rt; profile_after(Product::Mti300, &[0, 50]), Err(WRONG_VALUE));
    assert_eq!(rt; profile_after(Product::MtiG710, &[0, 50]), Err(WRONG_VALUE));
}

#[test]
fn profiles_in_two_bytes(rt: HostRuntime) {
    assert_eq!(rt; profile_after(Product::MtiG710, &[0x00, 0x02]), Ok(2));
    assert_eq!(rt; profile_after(Product::Mti3, &[0x00, 0x33]), Ok(51));
    assert_eq!(rt;
        profile_after(Product::Mti3, &[0x01, 0x32]),
        Err(WRONG_VALUE)
    );
    assert_eq!(rt; profile_after(Product::Mti3, &[0x33]), Err(WRONG_LENGTH));
    assert_eq!(rt;
        profile_after(Product::Mti3, &[0, 0, 0x33]),
        Err(WRONG_LENGTH)
    );
}

#[test]
fn error_modes(rt: HostRuntime) {
    for mode in [0, 1, 2, 3] {
        assert_eq!(rt;
            error_mode_after(Product::Mti300, &[0, mode]),
            Ok(u16::from(mode))
        );
    }
    assert_eq!(rt;
        error_mode_after(Product::Mti300, &[0, 4]),
        Err(WRONG_VALUE)
    );
    assert_eq!(rt;
        error_mode_after(Product::Mti300, &[1, 0]),
        Err(WRONG_VALUE)
    );
    assert_eq!(rt;
        error_mode_after(Product::Mti300, &[0, 0, 1]),
        Err(WRONG_LENGTH)
    );
}

#[test]
fn error_mode_is_not_for_mti_3(rt: HostRuntime) {
    let refused = Err(Refusal::Message(MessageError::NotAllowed));
    assert_eq!(rt; error_mode_after(Product::Mti3, &[]), refused);
    assert_eq!(rt; error_mode_after(Product::Mti3, &[0, 2]), refused);
    assert_eq!(rt; error_mode_after(Product::Mti3, &[0, 0, 2]), refused);
    assert_eq!(rt; MessageError::NotAllowed.number(), 4);
}

#[test]
fn every_location(rt: HostRuntime) {
    assert_eq!(rt; location_after(Product::Mti3, &[0x00, 0x05]), Ok(5));
    assert_eq!(rt; location_after(Product::Mti3, &[0xFF, 0xFF]), Ok(65535));
    assert_eq!(rt; location_after(Product::Mti3, &[0x05]), Err(WRONG_LENGTH));
}

#[test]
fn factory_values_return(rt: HostRuntime) -> Result<(), Fail> {
    let changed = serve(&Settings::factory(Product::Mti3), 0x84, &[0, 7])?;
    let changed = serve(&changed, 0x18, &[0x80])?;
    assert_eq!(rt; changed.values().location, 7);
    assert_eq!(rt; serve(&changed, 0x0E, &[0]).err(), Some(WRONG_LENGTH));
    let values = serve(&changed, 0x0E, &[])?.values();
    assert_eq!(rt; values.location, 0);
    assert_eq!(rt; values.baud, 0x02);
    Ok(())
}
