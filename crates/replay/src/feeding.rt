// Bytes fed again and again until a feed serves no frame.
ghost use Rattle.std.specs.Prelude.{◌≡◌, ◌≤◌, length, Err, IfOk, IfErr, OnOk};
ghost use Rattle.session.specs.Calls.{feed_call};
ghost use Rattle.unit.specs.Units.{model_of};
ghost use Rattle.replay.specs.declared.feeding.FeedError.TheVariants.{Refused, Memory};
ghost use Rattle.replay.specs.Feeding.{FedOnce, FedAll, Lawfully, IfRefused};

use sensor::Sensor;
use std::alloc::{AllocError, AllocFailed};
use store::Store;
use unit::{Device, Fed, Refusal};

// Why bytes were not fed to the end.
#[derive(Clone, Copy, PartialEq, Debug)]
pub enum FeedError {
    // the first feed was refused, and nothing was done
    Refused(Refusal),
    // there is no memory for the answers or the output
    Memory,
}

impl From<Refusal> for FeedError {
    ghost from_gives = { λ e r. r ≡ Refused e };

    fn from(e: Refusal) -> FeedError {
        FeedError::Refused(e)
    }
}

impl From<AllocError> for FeedError {
    ghost from_gives = { λ _ r. r ≡ Memory };

    fn from(_e: AllocError) -> FeedError {
        FeedError::Memory
    }
}

impl<T: Drop> From<AllocFailed<T>> for FeedError {
    ghost from_gives = { λ _ r. r ≡ Memory };

    fn from(_e: AllocFailed<T>) -> FeedError {
        FeedError::Memory
    }
}

// Feeds once, and adds the answer and what was written.
fn feed_once<S: Store, T: Sensor>(
    device: &mut Device<S, T>,
    bytes: &[u8],
    tray: &mut [u8],
    feeds: &mut Vec<Fed>,
    out: &mut Vec<u8>,
) -> Result<Fed, FeedError>
    ensures fed { IfOk result (FedOnce (model_of S.Store T.Sensor device.old) (model_of S.Store T.Sensor device.new) bytes.now (length tray.old) feeds.old.items feeds.new.items out.old.items out.new.items) }
    ensures refused { IfErr result (λ e. IfRefused e (λ r. (Err r ≡ (feed_call (model_of S.Store T.Sensor device.old) bytes.now (length tray.old)).2) × (device.new ≡ device.old) × (tray.new ≡ tray.old) × (feeds.new ≡ feeds.old) × (out.new ≡ out.old))) }
    ensures history { Lawfully (model_of S.Store T.Sensor device.old) (model_of S.Store T.Sensor device.new) }
    ensures taken { IfOk result (λ f. f.taken ≤ length bytes.now) }
{
    let fed = device.feed(bytes, tray)?;
    feeds.push(fed)?;
    out.extend_from_slice(&tray[..fed.written])?;
    Ok(fed)
}

// Feeds the bytes, and again and again those not taken yet, until a feed serves no frame.
// Adds the answer of each feed to `feeds`, and what it wrote to `out`.
pub fn feed_all<S: Store, T: Sensor>(
    device: &mut Device<S, T>,
    bytes: &[u8],
    tray: &mut [u8],
    feeds: &mut Vec<Fed>,
    out: &mut Vec<u8>,
) -> Result<(), FeedError>
    ensures fed { OnOk result (FedAll (model_of S.Store T.Sensor device.old) (model_of S.Store T.Sensor device.new) bytes.now (length tray.old) feeds.old.items feeds.new.items out.old.items out.new.items) }
    ensures refused { IfErr result (λ e. IfRefused e (λ r. (Err r ≡ (feed_call (model_of S.Store T.Sensor device.old) bytes.now (length tray.old)).2) × (device.new ≡ device.old) × (tray.new ≡ tray.old) × (feeds.new ≡ feeds.old) × (out.new ≡ out.old))) }
    ensures history { Lawfully (model_of S.Store T.Sensor device.old) (model_of S.Store T.Sensor device.new) }
{
    let mut rest = bytes;
    loop {
        let fed = feed_once(device, rest, tray, feeds, out)?;
        if !fed.served {
            return Ok(());
        }
        rest = &rest[fed.taken..];
    }
}
