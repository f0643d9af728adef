// The products.
#[derive(Clone, Copy, PartialEq, Debug)]
pub enum Product {
    Mti3,
    Mti30,
    Mti300,
    MtiG710,
}
