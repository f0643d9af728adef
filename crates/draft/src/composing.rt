// Composing the packets of a message that was read.
ghost use Rattle.std.specs.Prelude.{◌≡◌, ℕ, List};
ghost use Rattle.mtdata2.specs.Packets.{handed_out};
ghost use Rattle.mtdata2.specs.Words.{MessageOf};
ghost use Rattle.draft.specs.Round.{Recomposed};

use crate::draft::{Draft, Record};
use crate::refusal::Refusal;
use mtdata2::Message;

// Composes the packets of a message at the fill mark of a tray.
pub fn compose(message: &Message<'_>, mark: &mut usize, tray: &mut [u8]) -> Result<(), Refusal>
    ensures { (input : List ℕ) → MessageOf input (handed_out message.now.content.now) → Recomposed input mark.old tray.old result mark.new tray.new }
{
    let mut draft = Draft::begin(mark);
    for packet in message.packets() {
        let content = packet.content();
        draft.add(tray, content, Record::whole(packet.identifier(), content))?;
    }
    draft.close()
}
