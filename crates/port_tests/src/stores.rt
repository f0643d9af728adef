// Stores: cells of small ratings, and pages over memory of several lengths and contents.
ghost use Rattle.std.specs.Prelude.{◌≡◌};
ghost use Rattle.store.specs.Slots.{bytes_after};

use crate::any::{left_of_any, load_any, save_any};
use std::process::Abort;
use store::{Cell, IMAGE, Loaded, Page, Store, StoreError, try_store};

// The page over the memory has so many used slots and writes left, and holds an image exactly if a slot is used.
fn page_is(rt: &impl Abort, memory: &mut [u8], used: usize, left: u64) {
    let mut buf = [0u8; IMAGE];
    let mut page = Page::over(memory);
    assert_eq!(rt; page.used(), used);
    assert_eq!(rt; page.writes_left(), left);
    let found = if used > 0 { Loaded::Held } else { Loaded::None };
    assert_eq!(rt; page.load(&mut buf), Ok(found));
}

// What the owner of the memory knows once the page is gone: every byte.
fn save_over(memory: &mut [u8], image: &[u8]) -> Result<(), StoreError>
    ensures { memory.new ≡ bytes_after image.now memory.old }
{
    let mut page = Page::over(memory);
    page.save(image)
}

// The same where the page gives the memory back.
fn save_and_return<'a>(memory: &'a mut [u8], image: &[u8]) -> &'a mut [u8]
    ensures { result.now ≡ bytes_after image.now memory.old }
{
    let mut page = Page::over(memory);
    let _ = page.save(image);
    page.into_bytes()
}

#[test]
fn pages_of_several_lengths(rt: HostRuntime) {
    page_is(&rt, &mut [0xFF; 0], 0, 0);
    page_is(&rt, &mut [0xFF; 140], 0, 0);
    page_is(&rt, &mut [0xFF; 141], 0, 1);
    page_is(&rt, &mut [0xFF; 281], 0, 1);
    page_is(&rt, &mut [0xFF; 282], 0, 2);
}

#[test]
fn pages_of_zeros_are_used_up(rt: HostRuntime) {
    page_is(&rt, &mut [0; 140], 0, 0);
    page_is(&rt, &mut [0; 141], 1, 0);
    page_is(&rt, &mut [0; 281], 1, 0);
    page_is(&rt, &mut [0; 282], 2, 0);
    let mut memory = [0u8; 282];
    assert_eq!(rt;
        save_over(&mut memory, &[9; IMAGE]),
        Err(StoreError::NoWritesLeft)
    );
    assert_eq!(rt; memory[1], 0);
}

#[test]
fn marks_behind_a_gap_count_for_nothing(rt: HostRuntime) {
    let mut memory = [0u8; 423];
    memory[0] = 0xFF;
    page_is(&rt, &mut memory, 0, 3);
    assert_eq!(rt; save_over(&mut memory, &[7; IMAGE]), Ok(()));
    assert_eq!(rt; memory[0], 0x00);
    assert_eq!(rt; memory[1], 7);
    assert_eq!(rt; memory[140], 7);
    assert_eq!(rt; memory[141], 0xFF);
    assert_eq!(rt; memory[142], 0);
    assert_eq!(rt; memory[282], 0x00);
    page_is(&rt, &mut memory, 1, 2);
}

#[test]
fn bytes_left_over_stay(rt: HostRuntime) {
    let mut memory = [0x55u8; 285];
    assert_eq!(rt; save_over(&mut memory, &[1; IMAGE]), Ok(()));
    assert_eq!(rt; memory[141], 0xFF);
    assert_eq!(rt; save_over(&mut memory, &[2; IMAGE]), Ok(()));
    assert_eq!(rt; memory[141], 0x00);
    assert_eq!(rt; memory[142], 2);
    assert_eq!(rt; memory[281], 2);
    assert_eq!(rt; memory[282], 0x55);
    assert_eq!(rt;
        save_over(&mut memory, &[3; IMAGE]),
        Err(StoreError::NoWritesLeft)
    );
    assert_eq!(rt; memory[142], 2);
}

#[test]
fn wrong_lengths_come_first(rt: HostRuntime) {
    let mut buf = [0x33u8; 141];
    let mut memory = [0u8; 282];
    let mut page = Page::over(&mut memory);
    assert_eq!(rt; page.load(&mut buf), Err(StoreError::WrongLength));
    assert_eq!(rt; page.save(&buf), Err(StoreError::WrongLength));
    let mut cell = Cell::new(0);
    assert_eq!(rt; cell.save(&buf), Err(StoreError::WrongLength));
    assert_eq!(rt; cell.load(&mut buf), Err(StoreError::WrongLength));
    assert_eq!(rt; buf[0], 0x33);
}

#[test]
fn refusals_bear_6_and_7(rt: HostRuntime) {
    assert_eq!(rt; StoreError::WrongLength.number(), 6);
    assert_eq!(rt; StoreError::NoWritesLeft.number(), 7);
}

#[test]
fn cells_of_rating_0_and_1(rt: HostRuntime) {
    let mut buf = [0x33u8; IMAGE];
    let mut none = Cell::new(0);
    assert_eq!(rt; none.writes_left(), 0);
    assert_eq!(rt; none.save(&[1; IMAGE]), Err(StoreError::NoWritesLeft));
    assert_eq!(rt; none.load(&mut buf), Ok(Loaded::None));
    assert_eq!(rt; buf[0], 0x33);
    let mut one = Cell::new(1);
    assert_eq!(rt; one.save(&[1; IMAGE]), Ok(()));
    assert_eq!(rt; one.writes_left(), 0);
    assert_eq!(rt; one.save(&[2; IMAGE]), Err(StoreError::NoWritesLeft));
    assert_eq!(rt; one.load(&mut buf), Ok(Loaded::Held));
    assert_eq!(rt; buf[139], 1);
}

#[test]
fn the_last_image_saved_is_loaded(rt: HostRuntime) {
    let mut buf = [0u8; IMAGE];
    let mut memory = [0xFFu8; 282];
    let mut page = Page::over(&mut memory);
    let trial = try_store(&mut page, &[1; IMAGE], &[2; IMAGE], &mut buf);
    assert_eq!(rt; trial.first, Ok(()));
    assert_eq!(rt; trial.second, Ok(()));
    assert_eq!(rt; trial.loaded, Ok(Loaded::Held));
    assert_eq!(rt; buf[0], 2);
    let bytes = save_and_return(page.into_bytes(), &[3; IMAGE]);
    assert_eq!(rt; bytes.len(), 282);
    let trial = try_store(&mut Cell::new(1), &[4; IMAGE], &[5; IMAGE], &mut buf);
    assert_eq!(rt; trial.second, Err(StoreError::NoWritesLeft));
    assert_eq!(rt; buf[0], 4);
}

// The same answers through a trait object.
#[test]
fn any_store(rt: HostRuntime) {
    let mut memory = [0xFF; 141];
    let mut page = Page::over(&mut memory);
    let mut buf = [0u8; IMAGE];
    assert_eq!(rt; load_any(&mut page, &mut buf), Ok(Loaded::None));
    assert_eq!(rt; save_any(&mut page, &[7; IMAGE]), Ok(()));
    assert_eq!(rt; load_any(&mut page, &mut buf), Ok(Loaded::Held));
    assert_eq!(rt; buf, [7; IMAGE]);
    assert_eq!(rt; left_of_any(&page), 0);
    let mut cell = Cell::new(1);
    assert_eq!(rt;
        save_any(&mut cell, &[7; 139]),
        Err(StoreError::WrongLength)
    );
    assert_eq!(rt; left_of_any(&cell), 1);
}
