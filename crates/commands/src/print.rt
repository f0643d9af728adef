// Lines of bytes.
use lines::push_bytes;

// Prints a line of a word and the bytes behind it.
pub fn print_bytes(rt: &HostRuntime, word: &str, bytes: &[u8]) -> anyhow::Result<()> {
    let mut line = String::from_str(rt.alloc(), word)?;
    push_bytes(&mut line, bytes)?;
    rt.println(line.as_str())?;
    Ok(())
}

// Prints a line of bytes alone.
pub fn print_bare_bytes(rt: &HostRuntime, bytes: &[u8]) -> anyhow::Result<()> {
    let mut line = String::new(rt.alloc());
    push_bytes(&mut line, bytes)?;
    rt.println(line.as_str().trim_start())?;
    Ok(())
}
