// What a line says of a unit.
use commands::{Arguments, Misread};
use mti::Product;

#[derive(Clone, Copy, PartialEq, Debug)]
pub enum SensorKind {
    Ramp,
    Recorded,
}

#[derive(Clone, Copy, PartialEq, Debug)]
pub enum StoreKind {
    // with its rating
    Cell(u32),
    Page,
}

#[derive(Clone, Copy, PartialEq, Debug)]
pub struct Making {
    pub product: Product,
    pub device_id: u32,
    pub sensor: SensorKind,
    pub store: StoreKind,
}

fn read_product(arguments: &mut Arguments<'_>) -> Result<Product, Misread> {
    match arguments.word() {
        Some(b"MTi-3") => Ok(Product::Mti3),
        Some(b"MTi-30") => Ok(Product::Mti30),
        Some(b"MTi-300") => Ok(Product::Mti300),
        Some(b"MTi-G-710") => Ok(Product::MtiG710),
        _ => Err(Misread::NotAProduct),
    }
}

fn read_sensor(arguments: &mut Arguments<'_>) -> Result<SensorKind, Misread> {
    match arguments.word() {
        Some(b"ramp") => Ok(SensorKind::Ramp),
        Some(b"rows") => Ok(SensorKind::Recorded),
        _ => Err(Misread::NotASensor),
    }
}

fn read_store(arguments: &mut Arguments<'_>) -> Result<StoreKind, Misread> {
    match arguments.word() {
        Some(b"cell") => Ok(StoreKind::Cell(arguments.number32()?)),
        Some(b"page") => Ok(StoreKind::Page),
        _ => Err(Misread::NotAStore),
    }
}

// PRODUCT ID SENSOR STORE.
pub fn read_making(line: &[u8]) -> Result<Making, Misread> {
    let mut arguments = Arguments::of(line);
    let making = Making {
        product: read_product(&mut arguments)?,
        device_id: arguments.device_id()?,
        sensor: read_sensor(&mut arguments)?,
        store: read_store(&mut arguments)?,
    };
    arguments.end()?;
    Ok(making)
}
