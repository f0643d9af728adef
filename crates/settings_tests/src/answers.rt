// The data of answers.
use crate::served::{answers, serve};
use config::{answer, configuration};
use decision::Question;
use mti::Product;
use settings::Settings;
use std::test::Fail;

#[test]
fn who_the_unit_is(rt: HostRuntime) {
    for (product, name) in [
        (Product::Mti3, b"MTi-3".as_slice()),
        (Product::Mti30, b"MTi-30"),
        (Product::Mti300, b"MTi-300"),
        (Product::MtiG710, b"MTi-G-710"),
    ] {
        let settings = Settings::factory(product);
        answers(&rt, &settings, 0x1C, name);
        answers(&rt, &settings, 0x00, &[1, 2, 3, 4]);
        answers(&rt, &settings, 0x12, &[1, 0, 0, 0, 0, 0, 0, 0, 0, 0, 0]);
    }
}

#[test]
fn factory_values(rt: HostRuntime) {
    for (product, profile) in [
        (Product::Mti3, 50),
        (Product::Mti30, 39),
        (Product::Mti300, 39),
        (Product::MtiG710, 1),
    ] {
        let settings = Settings::factory(product);
        answers(&rt, &settings, 0x18, &[0x02]);
        answers(&rt, &settings, 0x84, &[0, 0]);
        answers(&rt, &settings, 0x64, &[0x01, profile]);
        answers(&rt, &settings, 0x48, &[0, 0, 0, 0]);
    }
    answers(&rt, &Settings::factory(Product::Mti30), 0xDA, &[0, 1]);
}

#[test]
fn factory_outputs(rt: HostRuntime) {
    let common = [
        0x20, 0x10, 0, 100, 0x10, 0x20, 0, 100, 0x10, 0x60, 0, 100, 0xE0, 0x20, 0, 100,
    ];
    answers(&rt, &Settings::factory(Product::Mti3), 0xC0, &common);
    answers(&rt, &Settings::factory(Product::Mti300), 0xC0, &common);
    let all = [
        0x20, 0x10, 0, 100, 0x10, 0x20, 0, 100, 0x10, 0x60, 0, 100, 0xE0, 0x20, 0, 100, 0x50, 0x22,
        0, 100, 0x50, 0x42, 0, 100, 0xD0, 0x12, 0, 100,
    ];
    answers(&rt, &Settings::factory(Product::MtiG710), 0xC0, &all);
}

#[test]
fn changed_values(rt: HostRuntime) -> Result<(), Fail> {
    let settings = serve(&Settings::factory(Product::Mti300), 0x18, &[0x80])?;
    let settings = serve(&settings, 0xDA, &[0x00, 0x03])?;
    let settings = serve(&settings, 0x84, &[0x12, 0x34])?;
    let settings = serve(&settings, 0x64, &[0x00, 0x2B])?;
    let settings = serve(&settings, 0x48, &[0, 0, 0, 0x90, 0, 0, 0, 0])?;
    answers(&rt, &settings, 0x18, &[0x80]);
    answers(&rt, &settings, 0xDA, &[0x00, 0x03]);
    answers(&rt, &settings, 0x84, &[0x12, 0x34]);
    answers(&rt, &settings, 0x64, &[0x01, 0x2B]);
    answers(&rt, &settings, 0x48, &[0, 0, 0, 0x90]);
    Ok(())
}

#[test]
fn configurations(rt: HostRuntime) {
    for (product, size) in [(Product::Mti3, 38), (Product::MtiG710, 83)] {
        let mut wanted = [0; 118];
        wanted[..4].copy_from_slice(&[1, 2, 3, 4]);
        wanted[96..104].copy_from_slice(&[0, 1, 1, 2, 3, 4, 0, size]);
        let settings = Settings::factory(product);
        assert_eq!(rt; configuration(&settings, 0x0102_0304), wanted);
        answers(&rt, &settings, 0x0C, &wanted);
    }
}

#[test]
fn answers_without_room(rt: HostRuntime) {
    let settings = Settings::factory(Product::Mti3);
    let mut out = [0x55; 3];
    assert_eq!(rt; answer(&settings, 7, Question::DeviceId, &mut out), None);
    assert_eq!(rt; out, [0x55; 3]);
    assert_eq!(rt; answer(&settings, 7, Question::Profile, &mut out), Some(2));
    assert_eq!(rt; out, [0x01, 0x32, 0x55]);
}
