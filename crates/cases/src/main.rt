// Runs schedules that are kept with their outputs, which were worked out independently of this code, and
// tells of each whether the output is the one that is kept.
#![tactic(auto)]

ghost use Rattle.std.specs.Prelude.{◌≡◌, ◌↔◌, IsNone};

use schedule::run_text;
use std::rt::Files;
use std::{fs, io};

/// The file that has the names of the cases, one to a line. It stands with the cases in the folder where
/// the program is run.
const NAMES: &str = "names";

// Where two texts differ first, if they do.
fn difference(one: &[u8], other: &[u8]) -> Option<usize>
    ensures { IsNone result ↔ (one.now ≡ other.now) }
{
    if one == other {
        return None;
    }
    let shorter = one.len().min(other.len());
    let place = one.iter().zip(other).position(|(a, b)| a != b);
    Some(place.unwrap_or(shorter))
}

// Runs the case of that name, and tells whether its output is the one that is kept. Answers that too.
fn judge(rt: &(impl Files + AllocGlobal + Print), name: &str) -> io::Result<bool> {
    let text = fs::read(rt, format!(in rt.alloc(); "{name}.in")?)?;
    let kept = fs::read(rt, format!(in rt.alloc(); "{name}.out")?)?;
    let output = run_text(rt.alloc(), text.as_slice())?;
    let difference = difference(output.as_bytes(), kept.as_slice());
    match difference {
        None => println!(rt; "{name}: as expected")?,
        Some(place) => println!(rt; "{name}: DIFFERS at byte {place}")?,
    }
    Ok(difference.is_none())
}

fn main(rt: HostRuntime) -> io::Result<()> {
    let names = fs::read_to_string(&rt, NAMES)?;
    let (good, all) = names.lines().try_fold((0u32, 0u32), |(good, all), name| {
        let as_kept = judge(&rt, name)?;
        Ok::<_, io::Error>((
            good.saturating_add(u32::from(as_kept)),
            all.saturating_add(1),
        ))
    })?;
    println!(rt; "{good} of {all}")
}
