// A sensor of one's own, as in docs/USING.md: it has no reading.
ghost use Rattle.std.specs.Prelude.{None};

use mti::Product;
use sensor::{Question, Sensor};
use store::Cell;
use unit::Device;

#[derive(Drop)]
struct Silent;

impl Sensor for Silent {
    ghost meaning = { λ _ channel index tick. None };

    // its numbers are in their channels' ranges: by a lemma
    #[tactic(auto, using(crate::proofs::NoReading::silent_ranged))]
    fn reading(&mut self, _question: Question) -> Option<i64> {
        None
    }
}

// Without a reading, and with a list of such channels alone, nothing is sent.
#[test]
fn own_sensor(rt: HostRuntime) {
    let mut tray = [0; 2055];
    let mut device = Device::new(Product::Mti3, 1, Cell::new(0), Silent);
    assert_eq!(rt; device.power(&mut tray), Ok(5));
    for _ in 0..1000 {
        assert!(rt; device.tick(&mut tray).is_ok());
    }
    // the packet counter and the time need none
    assert_eq!(rt; device.tick(&mut tray), Ok(17));
}
