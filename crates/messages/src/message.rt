// A data message: its packets, or its fault.
use lines::push_bytes;
use mtdata2::{Fault, Packet, read};

// Form: no Display for a fault, since only this line puts number, layer and place in this order.
fn print_fault(rt: &HostRuntime, fault: Fault) -> anyhow::Result<()> {
    let number = fault.number();
    let layer = fault.layer();
    let place = fault.place;
    println!(rt; "fault {number} {layer} {place}")?;
    Ok(())
}

fn print_packet(rt: &HostRuntime, packet: Packet<'_>) -> anyhow::Result<()> {
    let kind = match packet {
        Packet::Real { .. } => "real",
        Packet::Whole { .. } => "whole",
        Packet::Unknown { .. } => "unknown",
    };
    let identifier = packet.identifier();
    let content = packet.content();
    let size = content.len();
    let mut line = format!(in rt.alloc(); "packet {identifier:04X} {kind} {size}")?;
    push_bytes(&mut line, content)?;
    rt.println(line.as_str())?;
    Ok(())
}

// Prints the packets of a data message in order, or its fault.
pub fn print_message(rt: &HostRuntime, input: &[u8]) -> anyhow::Result<()> {
    match read(input) {
        Ok(message) => {
            for packet in message.packets() {
                print_packet(rt, packet)?;
            }
            Ok(())
        }
        Err(fault) => print_fault(rt, fault),
    }
}
