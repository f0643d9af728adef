// The data of answers.
ghost use Rattle.std.specs.Prelude.{◌≡◌, ◌≤◌, ◌++◌, length, take};
ghost use Rattle.std.specs.List.{flat_map};
ghost use Rattle.xbus.specs.Numbers.{be};
ghost use Rattle.settings.specs.View.{values_of};
ghost use Rattle.config.specs.Answered.{name_of, output_bytes, answer_of, count_in, laid_in};
ghost use Rattle.config.specs.Told.{AnswerBound, AskedSaid};

use crate::layout::configuration;
use decision::Question;
use mti::Product;
use settings::{Entry, MOST_ENTRIES, Settings};

// The most bytes of an answer.
pub const MOST_ANSWER: usize = 128;

const FIRMWARE: [u8; 11] = [1, 0, 0, 0, 0, 0, 0, 0, 0, 0, 0];

fn name(product: Product) -> &'static [u8]
    ensures { result.now ≡ name_of product }
{
    match product {
        Product::Mti3 => b"MTi-3",
        Product::Mti30 => b"MTi-30",
        Product::Mti300 => b"MTi-300",
        Product::MtiG710 => b"MTi-G-710",
    }
}

// The four bytes of an entry.
fn entry_bytes(entry: &Entry) -> [u8; 4]
    ensures { result ≡ be 2 entry.now.identifier ++ be 2 entry.now.frequency }
{
    let [a, b] = entry.identifier.to_be_bytes();
    let [c, d] = entry.frequency.to_be_bytes();
    [a, b, c, d]
}

// The bytes of the entries, each in its place.
fn output_bytes(entries: &[Entry]) -> [[u8; 4]; MOST_ENTRIES]
    requires { length entries.now ≤ 32 }
    ensures { flat_map (λ bytes. bytes) (take (length entries.now) result) ≡ output_bytes entries.now }
{
    let mut out = [[0; 4]; MOST_ENTRIES];
    // Form: an index, since after a loop over a zip of `out` and the entries a proof knows nothing of `out`.
    for (i, entry) in entries.iter().enumerate() {
        out[i] = entry_bytes(entry);
    }
    out
}

// Writes the bytes at the front, if there is room, and says how many.
fn lay(out: &mut [u8], bytes: &[u8]) -> Option<usize>
    ensures count { result ≡ count_in bytes.now out.old }
    ensures after { out.new ≡ laid_in bytes.now out.old }
{
    let len = bytes.len();
    let (front, _) = out.split_at_mut_checked(len)?;
    front.copy_from_slice(bytes);
    Some(len)
}

// Writes the answer at the front, and says how many bytes it has; none, and nothing is written, if it does not fit.
// Form: settings and device ID stay two parameters, since only this function and `configuration` take both.
#[tactic(auto, using(crate::proofs::Layouts::answer_bound, crate::proofs::Asking::asked_said), unfolding(crate::specs::Answered::answer_of))]
pub fn answer(
    settings: &Settings,
    device_id: u32,
    question: Question,
    out: &mut [u8],
) -> Option<usize>
    ensures count { result ≡ count_in (answer_of device_id (values_of settings.now) question) out.old }
    ensures after { out.new ≡ laid_in (answer_of device_id (values_of settings.now) question) out.old }
    ensures bound { AnswerBound }
    ensures asked { AskedSaid }
{
    let values = settings.values();
    match question {
        Question::DeviceId => lay(out, &device_id.to_be_bytes()),
        Question::Name => lay(out, name(settings.product())),
        Question::Firmware => lay(out, &FIRMWARE),
        Question::Configuration => lay(out, &configuration(settings, device_id)),
        Question::Baud => lay(out, &[values.baud]),
        Question::ErrorMode => lay(out, &values.error_mode.to_be_bytes()),
        Question::Location => lay(out, &values.location.to_be_bytes()),
        Question::Profile => lay(out, &[1, values.profile]),
        Question::Flags => lay(out, &values.flags.to_be_bytes()),
        Question::Outputs => {
            let entries = settings.entries();
            lay(out, output_bytes(entries)[..entries.len()].as_flattened())
        }
    }
}
