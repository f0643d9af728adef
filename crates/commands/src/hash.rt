// A hash over many bytes, and a row of numbers that look random.
ghost use Rattle.std.specs.Prelude.{◌≡◌};
ghost use Rattle.commands.specs.Hashes.{hash_of_none, hash_with, number_behind};

// The hash of the bytes so far.
#[derive(Clone, Copy)]
pub struct Hash {
    value: u64,
}

impl Hash {
    // Of no bytes.
    pub fn new() -> Hash
        ensures { result.value ≡ hash_of_none }
    {
        Hash {
            value: 14_695_981_039_346_656_037,
        }
    }

    // With more bytes.
    pub fn add(&mut self, bytes: &[u8])
        ensures { self.new.value ≡ hash_with self.old.value bytes.now }
    {
        self.value = bytes.iter().fold(self.value, |hash, byte| {
            (hash ^ u64::from(*byte)).wrapping_mul(1_099_511_628_211)
        });
    }

    pub fn value(&self) -> u64
        ensures { result ≡ self.now.value }
    {
        self.value
    }
}

// The number behind x in the row.
pub fn next_number(x: u64) -> u64
    ensures { result ≡ number_behind x }
{
    x.wrapping_mul(6_364_136_223_846_793_005)
        .wrapping_add(1_442_695_040_888_963_407)
}
