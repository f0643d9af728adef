// Option flags: Set and Clear.
use crate::served::{Refusal, WRONG_LENGTH, WRONG_VALUE, serve};
use mti::Product;
use settings::Settings;
use std::test::Fail;

// The data of the message: Set, and then Clear.
fn set_and_clear(set: u32, clear: u32) -> [u8; 8] {
    let [a, b, c, d] = set.to_be_bytes();
    let [e, f, g, h] = clear.to_be_bytes();
    [a, b, c, d, e, f, g, h]
}

// The product's flags after the bits were set, and then Set and Clear were sent.
fn flags_after(product: Product, bits: u32, set: u32, clear: u32) -> Result<u32, Refusal> {
    let settings = serve(&Settings::factory(product), 0x48, &set_and_clear(bits, 0))?;
    Ok(serve(&settings, 0x48, &set_and_clear(set, clear))?.flags())
}

#[test]
fn set_10_and_clear_01(rt: HostRuntime) -> Result<(), Fail> {
    for product in [
        Product::Mti3,
        Product::Mti30,
        Product::Mti300,
        Product::MtiG710,
    ] {
        let settings = Settings::factory(product);
        let changed = serve(&settings, 0x48, &[0, 0, 0, 0x10, 0, 0, 0, 0x01])?;
        assert_eq!(rt; changed.flags(), 0x10);
    }
    Ok(())
}

#[test]
fn storing_off_and_measuring_on(rt: HostRuntime) {
    assert_eq!(rt; flags_after(Product::Mti3, 0x02, 0x01, 0x02), Ok(0x01));
}

#[test]
fn bits_in_both_stay_set(rt: HostRuntime) {
    assert_eq!(rt; flags_after(Product::Mti30, 0x00, 0x10, 0x10), Ok(0x10));
    assert_eq!(rt; flags_after(Product::Mti30, 0x10, 0x10, 0x10), Ok(0x10));
    assert_eq!(rt;
        flags_after(Product::Mti3, 0x83, 0x01, 0xFFFF_FFFF),
        Ok(0x01)
    );
}

#[test]
fn bits_that_are_not_named_stay(rt: HostRuntime) {
    assert_eq!(rt; flags_after(Product::Mti300, 0x90, 0x00, 0x00), Ok(0x90));
    assert_eq!(rt; flags_after(Product::Mti300, 0x90, 0x00, 0x10), Ok(0x80));
    assert_eq!(rt; flags_after(Product::Mti300, 0x80, 0x10, 0x00), Ok(0x90));
}

#[test]
fn bits_of_the_products(rt: HostRuntime) {
    for (product, bits) in [
        (Product::Mti3, 0x93),
        (Product::Mti30, 0x90),
        (Product::Mti300, 0x90),
        (Product::MtiG710, 0x94),
    ] {
        for flag in [
            0x01u32,
            0x02,
            0x04,
            0x08,
            0x10,
            0x20,
            0x40,
            0x80,
            0x100,
            0x8000_0000,
        ] {
            let wanted = if bits & flag == flag {
                Ok(flag)
            } else {
                Err(WRONG_VALUE)
            };
            assert_eq!(rt; flags_after(product, 0x00, flag, flag), wanted);
        }
    }
}

#[test]
fn eight_bytes(rt: HostRuntime) {
    let settings = Settings::factory(Product::Mti3);
    for content in [&[0; 4][..], &[0; 7], &[0; 9]] {
        assert_eq!(rt; serve(&settings, 0x48, content).err(), Some(WRONG_LENGTH));
    }
}
