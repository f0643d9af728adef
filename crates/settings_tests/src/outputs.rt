// Outputs: the frequency used, and which lists are refused.
use crate::served::{Refusal, WRONG_LENGTH, WRONG_VALUE, answers, serve};
use config::{WrongValue, change};
use decision::Change;
use mti::Product;
use settings::{Entry, Settings, largest_divisor};
use std::process::Abort;
use std::test::Fail;

// The product's first output after the message on factory settings.
fn first_after(product: Product, content: &[u8]) -> Result<Option<Entry>, Refusal> {
    Ok(
        serve(&Settings::factory(product), 0xC0, content)?
            .entries()
            .first()
            .copied(),
    )
}

// The first output is this one.
fn hz(identifier: u16, frequency: u16) -> Result<Option<Entry>, Refusal> {
    Ok(Some(Entry {
        identifier,
        frequency,
    }))
}

// The product cannot have the list.
fn refuses(rt: &impl Abort, product: Product, content: &[u8]) {
    assert_eq!(rt; first_after(product, content), Err(WRONG_VALUE));
}

#[test]
fn largest_divisors(rt: HostRuntime) {
    for (max_hz, asked, used) in [
        (400, 300, 200),
        (400, 400, 400),
        (100, 99, 50),
        (2000, 0xFFFF, 2000),
        (2000, 1999, 1000),
        (50, 24, 10),
        (400, 1, 1),
        (400, 0, 0),
        (0, 5, 0),
    ] {
        assert_eq!(rt; largest_divisor(max_hz, asked), used);
    }
}

#[test]
fn frequencies_used(rt: HostRuntime) {
    let product = Product::Mti3;
    assert_eq!(rt;
        first_after(product, &[0x20, 0x10, 0x01, 0x2C]),
        hz(0x2010, 200)
    );
    assert_eq!(rt;
        first_after(product, &[0x20, 0x13, 0x01, 0x90]),
        hz(0x2013, 400)
    );
    assert_eq!(rt;
        first_after(product, &[0xC0, 0x20, 0x00, 0x63]),
        hz(0xC020, 50)
    );
    assert_eq!(rt;
        first_after(product, &[0xC0, 0x20, 0x00, 0x01]),
        hz(0xC020, 1)
    );
}

#[test]
fn ff_ff_is_the_maximum(rt: HostRuntime) {
    let product = Product::MtiG710;
    assert_eq!(rt;
        first_after(product, &[0x10, 0x20, 0xFF, 0xFF]),
        hz(0x1020, 0x07D0)
    );
    assert_eq!(rt;
        first_after(product, &[0x80, 0x20, 0xFF, 0xFF]),
        hz(0x8020, 0x07D0)
    );
    assert_eq!(rt;
        first_after(product, &[0x20, 0x30, 0xFF, 0xFF]),
        hz(0x2030, 400)
    );
    assert_eq!(rt;
        first_after(product, &[0xC0, 0x21, 0xFF, 0xFF]),
        hz(0xC021, 100)
    );
    assert_eq!(rt;
        first_after(product, &[0x30, 0x10, 0xFF, 0xFF]),
        hz(0x3010, 50)
    );
    assert_eq!(rt;
        first_after(product, &[0x08, 0x10, 0xFF, 0xFF]),
        hz(0x0810, 1)
    );
}

#[test]
fn answered_as_used(rt: HostRuntime) -> Result<(), Fail> {
    let settings = Settings::factory(Product::Mti300);
    let asked = [
        0x20, 0x10, 0x01, 0x2C, 0x10, 0x20, 0xFF, 0xFF, 0xC0, 0x20, 0x00, 0x63,
    ];
    let changed = serve(&settings, 0xC0, &asked)?;
    let used = [
        0x20, 0x10, 0x00, 0xC8, 0x10, 0x20, 0x07, 0xD0, 0xC0, 0x20, 0x00, 0x32,
    ];
    answers(&rt, &changed, 0xC0, &used);
    Ok(())
}

#[test]
fn every_channel_at_1_hz(rt: HostRuntime) -> Result<(), Fail> {
    let all = [
        0x08, 0x10, 0, 1, 0x10, 0x20, 0, 1, 0x10, 0x60, 0, 1, 0x10, 0x70, 0, 1, 0x20, 0x10, 0, 1,
        0x20, 0x20, 0, 1, 0x20, 0x30, 0, 1, 0x30, 0x10, 0, 1, 0x40, 0x10, 0, 1, 0x40, 0x20, 0, 1,
        0x40, 0x30, 0, 1, 0x50, 0x20, 0, 1, 0x50, 0x40, 0, 1, 0x80, 0x20, 0, 1, 0x80, 0x30, 0, 1,
        0xC0, 0x20, 0, 1, 0xD0, 0x10, 0, 1, 0xE0, 0x10, 0, 1, 0xE0, 0x20, 0, 1,
    ];
    let changed = serve(&Settings::factory(Product::MtiG710), 0xC0, &all)?;
    answers(&rt, &changed, 0xC0, &all);
    refuses(&rt, Product::Mti300, &all);
    Ok(())
}

#[test]
fn four_zeros_empty_the_list(rt: HostRuntime) -> Result<(), Fail> {
    let changed = serve(&Settings::factory(Product::Mti3), 0xC0, &[0, 0, 0, 0])?;
    assert!(rt; changed.entries().is_empty());
    answers(&rt, &changed, 0xC0, &[]);
    refuses(&rt, Product::Mti3, &[0, 0, 0, 1]);
    refuses(&rt, Product::Mti3, &[0; 8]);
    refuses(&rt, Product::Mti3, &[0x20, 0x10, 0, 100, 0, 0, 0, 0]);
    Ok(())
}

#[test]
fn refused_lists(rt: HostRuntime) {
    // 0 Hz
    refuses(&rt, Product::Mti3, &[0x20, 0x10, 0, 0]);
    refuses(&rt, Product::Mti3, &[0x20, 0x10, 0, 1, 0x10, 0x20, 0, 0]);
    // a channel twice, in one precision and in two
    refuses(&rt, Product::Mti3, &[0x20, 0x10, 0, 1, 0x20, 0x10, 0, 1]);
    refuses(
        &rt,
        Product::Mti3,
        &[0x20, 0x10, 0, 1, 0x10, 0x20, 0, 1, 0x20, 0x12, 0, 1],
    );
    // no channel, and no precision of the channel
    refuses(&rt, Product::Mti3, &[0x12, 0x34, 0, 1]);
    refuses(&rt, Product::Mti3, &[0x20, 0x14, 0, 1]);
    refuses(&rt, Product::Mti3, &[0x10, 0x21, 0, 1]);
    refuses(&rt, Product::Mti300, &[0x30, 0x11, 0, 1]);
    // channels of other products
    refuses(&rt, Product::Mti30, &[0x30, 0x10, 0, 1]);
    refuses(&rt, Product::Mti300, &[0x50, 0x22, 0, 1]);
    assert_eq!(rt;
        first_after(Product::Mti300, &[0x30, 0x10, 0, 1]),
        hz(0x3010, 1)
    );
}

#[test]
fn lengths_of_lists(rt: HostRuntime) {
    let settings = Settings::factory(Product::Mti3);
    for content in [
        &[0; 1][..],
        &[0; 3],
        &[0; 5],
        &[0; 6],
        &[0; 127],
        &[0; 129],
        &[0; 132],
    ] {
        assert_eq!(rt; serve(&settings, 0xC0, content).err(), Some(WRONG_LENGTH));
        assert_eq!(rt;
            change(&settings, Change::Outputs(content)).err(),
            Some(WrongValue)
        );
    }
    // 32 entries have a length that fits, but no product has 32 channels
    assert_eq!(rt;
        serve(&settings, 0xC0, &[0x20; 128]).err(),
        Some(WRONG_VALUE)
    );
    assert_eq!(rt;
        change(&settings, Change::Outputs(&[])).err(),
        Some(WrongValue)
    );
}
