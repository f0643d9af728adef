// The calls of a script.
ghost use Rattle.std.specs.Prelude.{◌≡◌, ◌<◌, length, IfSome};
ghost use Rattle.std.specs.Option.{option_map};
ghost use Rattle.embed.specs.Scripts.{first_call, seen};

#[derive(Clone, Copy)]
pub enum Step<'a> {
    Power,
    Feed(&'a [u8]),
    Tick,
}

// The first call of a script, and the calls behind it: 1 powers, 2 feeds the bytes behind two bytes with their number,
// and 3 ticks. Anything else ends the script.
pub fn next_step(script: &[u8]) -> Option<(Step<'_>, &[u8])>
    ensures first { option_map seen result ≡ first_call script.now }
    ensures shorter { IfSome result (λ q. length q.1.now < length script.now) }
{
    match script {
        [1, rest @ ..] => Some((Step::Power, rest)),
        [2, high, low, rest @ ..] => {
            let len = usize::from(u16::from_be_bytes([*high, *low]));
            let (bytes, behind) = rest.split_at_checked(len)?;
            Some((Step::Feed(bytes), behind))
        }
        [3, rest @ ..] => Some((Step::Tick, rest)),
        _ => None,
    }
}
